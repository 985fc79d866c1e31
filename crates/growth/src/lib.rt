// How far the spread may grow before a span that is empty can fill, where a window's end need not grow with the spread: growing ends and lacks, strip by
// strip from the top down, from a table of spans. What a growing end is, and what an end lacks, stands in spans/specs/Growth.antt. As there, each is a
// number, with 0 for none: growing ends are read from and written to StripGrowths, for which options were tried (crate arrays has the figure).
#![tactic(auto)]

ghost use Rattle.std.specs.Prelude.{◌≡◌, ◌-◌, ◌*◌, ◌≤◌, ◌<◌};
ghost use Rattle.spans.specs.Growth.{shifted, furthest_grow, end_lack};
ghost use Rattle.arrays.specs.Arrays.{bias, ends_of, entry, low_in, span_at, span_in};
ghost use Rattle.scan.specs.Scan.{EndsAsk};
ghost use Rattle.growth.specs.Growth.{GrowthsFit, CellAsks, grow_in, lack_in, GrowAsks, StripGrown, GrowthAsks, GrowthIs};

use arrays::{ChannelLimits, Given, SpanTable, StripGrowths, StripSpans, WindowGrowths};
use scan::{Cell, Ends, reach_back, start_above, stop_above};
use stack::Stack;

// What a strip's growing ends are worked out from, besides those of the strip above: its channel's limits, the table of spans, and its window's growing end.
#[derive(Clone, Copy)]
struct StripGiven<'a> {
    limits: &'a ChannelLimits,
    table: &'a SpanTable,
    own: u64,
}

// Below which total a strip's spans are known to be empty, and the jump cut down to what they lack.
#[derive(Clone, Copy)]
struct Grown {
    empty: usize,
    jump: u64,
}

// A growing end shifted back by a lower limit.
fn shift_grow(grow: u64, low: u64) -> u64
    requires { grow ≤ 2 * bias }
    ensures { result ≡ shifted bias low grow }
{
    if grow == 0 {
        0
    } else {
        (grow + Stack::BIAS).saturating_sub(low).max(1)
    }
}

// The greatest growing end of the strip above for what separations from start to below stop leave of total v, each shifted back by its limit. A loop over separations:
// the limits go up where spans and growing ends go down.
fn grow_back(
    limits: &ChannelLimits,
    spans: &StripSpans,
    grows: &StripGrowths,
    v: usize,
    start: usize,
    stop: usize,
) -> u64
    requires ends { EndsAsk limits.now spans.now v start stop }
    requires growths { GrowthsFit spans.now grows.now v start }
    ensures { result ≡ furthest_grow bias (low_in limits.now) (λ q. span_at spans.now (v - q)) (λ q. entry grows.now (v - q)) start (stop - start) 0 }
{
    let mut grow = 0u64;
    for q in start..stop {
        let u = v - q;
        if spans.from[u] < spans.upto[u] {
            grow = grow.max(shift_grow(grows[u], limits.low[q]));
        }
    }
    grow
}

// By how much an end lacks the place x; grow is its growing end.
fn end_lack(x: u64, end: u64, grow: u64) -> u64
    ensures { result ≡ end_lack x end grow }
{
    if x <= end { 0 } else { x.saturating_sub(grow) }
}

impl StripGiven<'_> {
    // The growing end of a cell whose span is not empty.
    fn cell_grow(&self, grows: &StripGrowths, cell: Cell) -> u64
        requires cell { CellAsks self.now.limits.now cell self.now.table.now grows.now }
        requires full { (span_in self.now.table.now cell.i cell.v).from < (span_in self.now.table.now cell.i cell.v).upto }
        ensures { result ≡ grow_in self.now.limits.now cell self.now.own self.now.table.now grows.now cell.v }
    {
        let table = self.table;
        if u64::from(table[cell.i].upto[cell.v]) == cell.window.upto {
            return self.own;
        }
        let first = start_above(cell.least, cell.above, cell.v);
        let end = stop_above(cell.last, cell.v, cell.empty);
        grow_back(self.limits, &table[cell.i + 1], grows, cell.v, first, end)
    }

    // What a cell whose span is empty lacks.
    fn cell_lack(&self, grows: &StripGrowths, cell: Cell) -> u64
        requires { CellAsks self.now.limits.now cell self.now.table.now grows.now }
        ensures { result ≡ lack_in self.now.limits.now cell self.now.own self.now.table.now grows.now cell.v }
    {
        let spans = &self.table[cell.i + 1];
        let first = start_above(cell.least, cell.above, cell.v);
        let end = stop_above(cell.last, cell.v, cell.empty);
        let e = reach_back(self.limits, spans, cell.v, first, end, Ends::NONE);
        let x = cell.window.from.max(e.near.saturating_sub(Stack::BIAS)) + 1 + Stack::BIAS;
        let by_window = end_lack(x, cell.window.upto + Stack::BIAS, self.own);
        if x <= e.reach {
            return by_window;
        }
        let grow = grow_back(self.limits, spans, grows, cell.v, first, end);
        by_window.max(end_lack(x, e.reach, grow))
    }

    // Puts the growing ends of one strip in the place of those of the strip above, for totals from the cell's to below end, the greatest first: what a total asks
    // of the strip above is not at a greater one, and so a loop writes in the place that it no longer reads.
    fn grow_strip(&self, first: Cell, end: usize, before: u64, grows: &mut StripGrowths) -> Grown
        requires { GrowAsks self.now.limits.now first end self.now.own self.now.table.now grows.old before }
        ensures { StripGrown self.now.limits.now first first.v end self.now.own self.now.table.now grows.old grows.new before result.empty result.jump }
    {
        let spans = &self.table[first.i];
        let mut empty = end;
        let mut jump = before;
        for v in (first.v..end).rev() {
            let cell = first.at(v);
            if spans.from[v] < spans.upto[v] {
                grows[v] = self.cell_grow(grows, cell);
                empty = v;
            } else {
                jump = jump.min(self.cell_lack(grows, cell));
            }
        }
        Grown { empty, jump }
    }
}

// How far the spread may grow before an empty span for a total below the stated one can fill, where growths are the windows' growing ends. A loop over strips: each
// goes on from the growing ends of the one above.
pub fn growth_jump(given: &Given, growths: &WindowGrowths, total: usize, table: &SpanTable) -> u64
    requires { GrowthAsks given.now (ends_of growths.now) total table.now }
    ensures { GrowthIs given.now (ends_of growths.now) total result }
{
    let k = given.channels;
    let mut grows = [0u64; Stack::TOTALS];
    grows[0] = growths[k].unwrap_or(0);
    let mut empty = 0;
    let mut jump = Stack::BIAS;
    for i in (0..k).rev() {
        let first = Cell::of(given, i, given.plan.leasts[i] + empty, empty);
        let end = (given.plan.above[i] + 1).min(total);
        let own = growths[i].unwrap_or(0);
        let limits = &given.limits[i];
        let strip = StripGiven { limits, table, own };
        let grown = strip.grow_strip(first, end, jump, &mut grows);
        empty = grown.empty;
        jump = grown.jump;
    }
    jump
}
