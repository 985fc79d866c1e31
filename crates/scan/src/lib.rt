// The least total of a stack in a spread, from windows and limit lists: totals tried in rising order, with the jump to the next event.
#![tactic(auto)]

ghost use Rattle.std.specs.Prelude.{◌≡◌, ◌+◌, ◌-◌, ◌*◌, ◌≤◌, ◌<◌, min, max};
ghost use Rattle.stack.specs.Sizes.{channels_held, separations_held, totals_held};
ghost use Rattle.spans.specs.Spans.{nonempty};
ghost use Rattle.spans.specs.Jump.{min_if, max_if};
ghost use Rattle.arrays.specs.Arrays.{bias, greatest_end, window_at, TwoRows, Sized};
ghost use Rattle.scan.specs.Scan.{put_span, EndsAsk, EndsAre, EndsServe, cell_in, cell_at, StripAsks, StripDone, jump_if, EmptyOn, EmptiesAre, none_in, RowIs, EndsFit, Cleared, OnlyAt, TotalAsks, Scanning, ScanAsks, ScanIs};

use arrays::{ChannelLimits, Given, SpanTable, StripSpans};
use spans::Span;
use stack::Stack;

// Of spans shifted back: the nearest start and the furthest end, each raised by the bias once more.
#[derive(Clone, Copy)]
pub struct Ends {
    pub near: u64,
    pub reach: u64,
}

impl Ends {
    // Of no span.
    pub const NONE: Ends = Ends {
        near: 2 * Stack::BIAS,
        reach: 0,
    };
}

// Strip i at total v: the separations of its channel from the least open one to the last of use, what the channels above can use, below which total the strip
// above has empty spans, and its window.
#[derive(Clone, Copy)]
pub struct Cell {
    pub i: usize,
    pub v: usize,
    pub least: usize,
    pub last: usize,
    pub above: usize,
    pub empty: usize,
    pub window: Span,
}

impl Cell {
    // Strip i at total v, where the strip above has empty spans below total empty.
    pub fn of(given: &Given, i: usize, v: usize, empty: usize) -> Cell
        requires { i < channels_held }
        ensures { result ≡ cell_in given.now i v empty }
    {
        Cell {
            i,
            v,
            least: given.plan.leasts[i],
            last: given.plan.lasts[i],
            above: given.plan.above[i + 1],
            empty,
            window: given.windows[i],
        }
    }

    // The same strip at another total.
    pub fn at(self, v: usize) -> Cell
        ensures { result ≡ cell_at self v }
    {
        Cell { v, ..self }
    }
}

// The first total that can be had, and how far the spread may grow before a smaller total can be had. Where no total up to the cap can be had, total is cap + 1, and
// not None: callers compare it and go on with it as with any total.
#[derive(Clone, Copy)]
pub struct Scan {
    pub total: usize,
    pub jump: u64,
}

// The ends stretched by a span shifted back by the limit (low, high), if that span is not empty.
fn stretch(e: Ends, span: Span, low: u64, high: u64) -> Ends
    requires start { span.from ≤ bias }
    requires end { span.upto ≤ bias }
    requires low { low ≤ 2 * bias }
    requires high { high ≤ 2 * bias }
    ensures near { result.near ≡ min_if (nonempty span) (span.from + 2 * bias - high) e.near }
    ensures reach { result.reach ≡ max_if (nonempty span) (span.upto + 2 * bias - low) e.reach }
{
    if span.from < span.upto {
        Ends {
            near: e.near.min(span.from + 2 * Stack::BIAS - high),
            reach: e.reach.max(span.upto + 2 * Stack::BIAS - low),
        }
    } else {
        e
    }
}

// The ends stretched by the spans of the strip above for what separations from start to below stop leave of total v, each shifted back by its limit. Limits, spans, total,
// start and stop are what growth's `grow_back` takes too: a struct of them would be made anew for each call.
pub fn reach_back(
    limits: &ChannelLimits,
    spans: &StripSpans,
    v: usize,
    start: usize,
    stop: usize,
    before: Ends,
) -> Ends
    requires ends { EndsAsk limits.now spans.now v start stop }
    requires near { before.near ≤ 2 * bias }
    ensures { EndsAre limits.now spans.now v start stop before result }
{
    (start..stop).fold(before, |e, q| {
        stretch(e, spans.at(v - q), limits.low[q], limits.high[q])
    })
}

// Ends for a cell's window, from separations start to below stop. If those of the last one reach over the whole window, the others change nothing in it.
fn ends_in(
    limits: &ChannelLimits,
    spans: &StripSpans,
    cell: Cell,
    start: usize,
    stop: usize,
) -> Ends
    requires ends { EndsAsk limits.now spans.now cell.v start stop }
    requires some { start < stop }
    requires from { cell.window.from ≤ bias }
    requires upto { cell.window.upto ≤ bias }
    ensures { EndsServe limits.now spans.now cell.v start stop cell.window result }
{
    let q = stop - 1;
    let e = stretch(
        Ends::NONE,
        spans.at(cell.v - q),
        limits.low[q],
        limits.high[q],
    );
    let from = cell.window.from + Stack::BIAS;
    let upto = cell.window.upto + Stack::BIAS;
    if e.near <= from && upto <= e.reach {
        return e;
    }
    reach_back(limits, spans, cell.v, start, q, e)
}

// The first separation of use in a channel at a total of use: an open one that leaves no more than the levels above can use.
pub fn start_above(least: usize, above: usize, v: usize) -> usize
    ensures { result ≡ max least (v - above) }
{
    least.max(v.saturating_sub(above))
}

// One past the last separation of use that leaves a total of empty or more.
pub fn stop_above(last: usize, v: usize, empty: usize) -> usize
    requires last { last < separations_held }
    requires total { v < totals_held }
    ensures { result ≡ min (last + 1) (v + 1 - empty) }
{
    (last + 1).min((v + 1).saturating_sub(empty))
}

// The empty span, within its window, of a strip for which nothing is left above.
fn none_in(window: Span) -> Span
    ensures { result ≡ none_in window }
{
    Span {
        from: window.from.max(window.upto),
        upto: 0,
    }
}

// Writes the span of a cell, from the spans of the strip above, and answers by how much it is short, if it is.
pub fn scan_strip(limits: &ChannelLimits, cell: Cell, table: &mut SpanTable) -> Option<u64>
    requires { StripAsks limits.now cell table.old }
    ensures { StripDone limits.now cell table.old table.new result }
{
    let window = cell.window;
    let first = start_above(cell.least, cell.above, cell.v);
    let end = stop_above(cell.last, cell.v, cell.empty);
    if end <= first {
        table[cell.i].put(cell.v, none_in(window));
        return Some(2 * Stack::BIAS + 1);
    }
    let e = ends_in(limits, &table[cell.i + 1], cell, first, end);
    let near = e.near.saturating_sub(Stack::BIAS);
    let span = Span {
        from: window.from.max(window.upto.min(near)),
        upto: window.upto.min(e.reach.saturating_sub(Stack::BIAS)),
    };
    table[cell.i].put(cell.v, span);
    let reached = (window.upto + Stack::BIAS).min(e.reach);
    let needed = window.from.max(near) + 1 + Stack::BIAS;
    if reached < needed {
        Some(needed - reached)
    } else {
        None
    }
}

// The lesser of a jump and a shortfall, if there is a shortfall.
fn shorter(jump: u64, short: Option<u64>) -> u64
    ensures { result ≡ jump_if short jump }
{
    short.map_or(jump, |s| jump.min(s))
}

// How many first totals are known to have an empty span: those below count and below bound are, and v is if its span is short.
pub fn count_empty(count: usize, bound: usize, v: usize, short: Option<u64>) -> usize
    requires { v < totals_held }
    ensures { EmptyOn (max count bound) v short result }
{
    let known = count.max(bound);
    if short.is_none() || known < v {
        known
    } else {
        v + 1
    }
}

// Writes the spans of all strips below the top one for total v, from the top down, and answers the jump cut down to their shortfalls. Below its bound a strip has
// no span, for every separation leaves the strip above an empty one; then the strips below have none either, and all of them are cleared already.
fn scan_total(
    given: &Given,
    v: usize,
    before: u64,
    empties: &mut [usize; Stack::STRIPS],
    table: &mut SpanTable,
) -> u64
    requires { TotalAsks given.now v empties.old table.old before }
    ensures scanned { Scanning given.now v 0 table.new result }
    ensures empties { EmptiesAre given.now.channels v 0 table.new empties.new }
    ensures others { OnlyAt v 0 table.old table.new }
{
    let mut jump = before;
    for i in (0..given.channels).rev() {
        let empty = empties[i + 1];
        let bound = given.plan.leasts[i] + empty;
        if v < bound {
            return jump;
        }
        if v <= given.plan.above[i] {
            let cell = Cell::of(given, i, v, empty);
            let short = scan_strip(&given.limits[i], cell, table);
            empties[i] = count_empty(empties[i], bound, v, short);
            jump = shorter(jump, short);
        }
    }
    jump
}

// Writes a span for the totals up to cap.
fn clear_row(spans: &mut StripSpans, none: Span, cap: usize)
    requires total { cap < totals_held }
    requires sized { TwoRows spans.old }
    requires start { none.from ≤ greatest_end }
    requires end { none.upto ≤ greatest_end }
    ensures { RowIs none (cap + 1) spans.new }
{
    spans.from[..cap + 1].fill(none.from as u32);
    spans.upto[..cap + 1].fill(none.upto as u32);
}

// Gives each strip below the top one an empty span for the totals up to cap.
fn clear(given: &Given, cap: usize, table: &mut SpanTable)
    requires channels { given.now.channels ≤ channels_held }
    requires total { cap < totals_held }
    requires sized { Sized table.old }
    requires windows { EndsFit given.now.windows given.now.channels }
    ensures { Cleared given.now.windows given.now.channels 0 cap table.new }
{
    for (i, spans) in table[..given.channels].iter_mut().enumerate() {
        clear_row(spans, none_in(given.windows[i]), cap);
    }
}

// Gives the top strip its window for total 0.
pub fn put_window(given: &Given, table: &mut SpanTable)
    requires channels { given.now.channels ≤ channels_held }
    requires sized { Sized table.old }
    requires windows { EndsFit given.now.windows (given.now.channels + 1) }
    ensures { table.new ≡ put_span table.old given.now.channels 0 (window_at given.now.windows given.now.channels) }
{
    let k = given.channels;
    table[k].put(0, given.windows[k]);
}

// The first total up to cap that can be had, or one more than cap, with the table of spans for the totals up to it.
pub fn scan_totals(given: &Given, cap: usize, table: &mut SpanTable) -> Scan
    requires { ScanAsks given.now cap table.old }
    ensures { ScanIs given.now cap table.new result }
{
    clear(given, cap, table);
    put_window(given, table);
    let mut empties = [0usize; Stack::STRIPS];
    let mut jump = Stack::BIAS;
    // By number: a total is itself a number, and each goes on from the table, the jump and the empty spans of those before it.
    for v in 0..cap + 1 {
        let next = scan_total(given, v, jump, &mut empties, table);
        if table[0].from[v] < table[0].upto[v] {
            return Scan { total: v, jump };
        }
        jump = next;
    }
    Scan {
        total: cap + 1,
        jump,
    }
}
