// The least total of a stack in a spread, and the placement for a total.
#![tactic(auto)]

ghost use Rattle.std.specs.Prelude.{◌≡◌, true, suc, ◌+◌, ◌-◌, ◌<◌, ◌≤◌, ltb, max, MatchOption};
ghost use Rattle.stack.specs.Limits.{within_limits};
ghost use Rattle.stack.specs.Value.{strip_of, stack_of};
ghost use Rattle.stack.specs.Stack.{first_spread};
ghost use Rattle.arrays.specs.Arrays.{bias, unless_zero, entry, Sized};
ghost use Rattle.limits.specs.Limits.{open_from};
ghost use Rattle.scan.specs.Scan.{ScanIs};
ghost use Rattle.answer.specs.Arrays.{LimitsIn, WindowsIn, BelowGrowths, Held, Ready, PlacedIs, AnswerIs};
ghost use Rattle.answer.specs.Solve.{window, growth, answer_total};

use arrays::{Given, SpanTable, StackLimits, StripSpans, Windows};
use band::fill_band;
use channel::{channel_limits, open_from};
use plan::plan_for;
use scan::{Scan, scan_totals};
use solver::place_in;
use spans::Span;
use stack::{Placement, Stack, Strip, Tracks};

// The last separation of use in a channel with so many pairs and this floor: there its limits leave every offset open.
fn last_use(pairs: usize, floor: Tracks) -> usize
    requires { pairs ≤ 32 }
    ensures { result ≡ max (open_from pairs) floor.0 }
{
    open_from(pairs).max(floor.0 as usize)
}

// The limits and the last separations of use of a stack's channels. A loop over channels: four arrays in step.
#[tactic(auto, using(stack::proofs::Within::few_channels, stack::proofs::Within::few_pairs, stack::proofs::Within::small_floor, stack::proofs::Within::on_longest_strips))]
pub fn fill_limits(stack: &Stack, limits: &mut StackLimits, lasts: &mut [usize; Stack::STRIPS])
    requires { within_limits (stack_of stack.now) ≡ true }
    ensures { LimitsIn (stack_of stack.now) stack.now.count limits.new lasts.new }
{
    for i in 0..stack.count {
        let terminals = &stack.channels[i];
        let floor = stack.floors[i];
        limits[i] = channel_limits(terminals, floor);
        lasts[i] = last_use(terminals.count, floor);
    }
}

// Where a strip's positions within a spread end: one behind the last, where it fits.
fn spread_end(strip: &Strip, spread: u32) -> u64
    ensures { result ≡ spread + 1 - strip.now.length.0 }
{
    (spread as u64 + 1).saturating_sub(strip.length.0 as u64)
}

// A strip's window in a spread: within the spread, and inside its own where it is held.
#[tactic(auto, using(std::proofs::lemmas::Bool::Decides::nat_tests), unfolding(stack::specs::Value::window_of, crate::specs::Solve::window_span))]
fn window(strip: &Strip, spread: u32) -> Span
    ensures { result ≡ window spread (strip_of strip.now) }
{
    let end = spread_end(strip, spread);
    match strip.window {
        Some(window) => Span {
            from: window.least.0 as u64,
            upto: end.min(window.greatest.0 as u64 + 1),
        },
        None => Span { from: 0, upto: end },
    }
}

// The growing end of a strip's window in a spread, raised by the bias; none once its greatest position is within the spread.
#[tactic(auto, using(std::proofs::lemmas::Bool::Decides::nat_tests, arrays::proofs::Options::some_number), unfolding(stack::specs::Value::window_of, crate::specs::Solve::window_growth))]
pub fn growing_end(strip: &Strip, spread: u32) -> Option<u64>
    ensures { result ≡ unless_zero (growth bias spread (strip_of strip.now)) }
{
    let end = spread_end(strip, spread);
    match strip.window {
        Some(window) => {
            if (window.greatest.0 as u64) < end {
                return None;
            }
            Some(end + Stack::BIAS)
        }
        None => Some(end + Stack::BIAS),
    }
}

// The strips' windows in a spread; the answer is not above any of their growing ends, and none where one of them is none. A loop over strips: two arrays in step, and
// the least of what is found on the way.
#[tactic(auto, using(stack::proofs::Within::few_channels))]
pub fn fill_windows(stack: &Stack, spread: u32, windows: &mut Windows) -> Option<u64>
    requires { within_limits (stack_of stack.now) ≡ true }
    ensures windows { WindowsIn (stack_of stack.now) (suc stack.now.count) spread windows.new }
    ensures least { (least : _) × (result ≡ unless_zero least) × BelowGrowths (stack_of stack.now) (suc stack.now.count) spread least }
{
    let mut least = Some(Stack::BIAS);
    let strips = stack.count + 1;
    for i in 0..strips {
        let strip = &stack.strips[i];
        windows[i] = window(strip, spread);
        least = least.min(growing_end(strip, spread));
    }
    least
}

// The limits of a stack's channels and their plan, which serve for every spread, whatever the windows; these stay as they are. Given is filled in its place: one that is
// handed out is copied, which costs a small answer 5 % more instructions.
pub fn fill_held(stack: &Stack, given: &mut Given)
    requires { within_limits (stack_of stack.now) ≡ true }
    ensures held { Held stack.now given.new }
    ensures windows { given.new.windows ≡ given.old.windows }
{
    let mut lasts = [0usize; Stack::STRIPS];
    fill_limits(stack, &mut given.limits, &mut lasts);
    given.plan = plan_for(&given.limits, lasts, stack.count);
    given.channels = stack.count;
}

// The same, and the windows of the stack's strips in a spread.
fn fill_given(stack: &Stack, spread: u32, given: &mut Given)
    requires within { within_limits (stack_of stack.now) ≡ true }
    requires wide { first_spread (stack_of stack.now).strips ≤ spread }
    ensures { Ready stack.now spread given.new }
{
    fill_held(stack, given);
    fill_windows(stack, spread, &mut given.windows);
}

// What the solver is given for a spread from the first one on, and the scan of all totals of use, with its table. Both are filled in the caller's places: handed out they
// would be copied (see `fill_held`).
fn scan_in(stack: &Stack, spread: u32, given: &mut Given, table: &mut SpanTable) -> Scan
    requires within { within_limits (stack_of stack.now) ≡ true }
    requires wide { first_spread (stack_of stack.now).strips ≤ spread }
    requires sized { Sized table.old }
    ensures ready { Ready stack.now spread given.new }
    ensures scanned { ScanIs given.new (entry given.new.plan.above 0) table.new result }
{
    fill_given(stack, spread, given);
    scan_totals(given, given.plan.above[0], table)
}

// The least total in a spread from the first one on.
pub fn total_in(stack: &Stack, spread: u32) -> Tracks
    requires within { within_limits (stack_of stack.now) ≡ true }
    requires wide { first_spread (stack_of stack.now).strips ≤ spread }
    ensures { result.0 ≡ answer_total (stack_of stack.now) spread }
{
    let mut given = Given::NONE;
    let mut table = [StripSpans::NONE; Stack::STRIPS];
    let scan = scan_in(stack, spread, &mut given, &mut table);
    Tracks(scan.total as u32)
}

// The placement for the least total in a spread from the first one on.
pub fn answer_in(stack: &Stack, spread: u32) -> Placement
    requires within { within_limits (stack_of stack.now) ≡ true }
    requires wide { first_spread (stack_of stack.now).strips ≤ spread }
    ensures { AnswerIs (stack_of stack.now) spread result }
{
    let mut given = Given::NONE;
    let mut table = [StripSpans::NONE; Stack::STRIPS];
    let scan = scan_in(stack, spread, &mut given, &mut table);
    place_in(&given, scan.total, &table)
}

// Whether a span has a position.
fn has_position(span: Span) -> bool
    ensures { result ≡ ltb span.from span.upto }
{
    0 < span.upto.saturating_sub(span.from)
}

// The placement for a stated total in a spread from the first one on, if some legal placement there has that total. The least total is not looked for: the
// total is met exactly if the bottom strip has a position for it.
pub fn placement_in(stack: &Stack, spread: u32, total: Tracks) -> Option<Placement>
    requires within { within_limits (stack_of stack.now) ≡ true }
    requires wide { first_spread (stack_of stack.now).strips ≤ spread }
    ensures { MatchOption result (total.0 < answer_total (stack_of stack.now) spread) (λ p. (answer_total (stack_of stack.now) spread ≤ total.0) × PlacedIs (stack_of stack.now) spread total.0 p) }
{
    let mut given = Given::NONE;
    fill_given(stack, spread, &mut given);
    let mut table = [StripSpans::NONE; Stack::STRIPS];
    let stated = total.0 as usize;
    fill_band(&given, stated, &mut table);
    let used = stated.min(given.plan.above[0]);
    if !has_position(table[0].at(used)) {
        return None;
    }
    Some(place_in(&given, stated, &table))
}
