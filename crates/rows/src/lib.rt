// The rows of a stack's table: one spread worked out in what is held from spread to spread.
#![tactic(auto)]

ghost use Rattle.std.specs.Prelude.{◌≡◌, true, suc};
ghost use Rattle.stack.specs.Limits.{within_limits};
ghost use Rattle.stack.specs.Value.{stack_of};
ghost use Rattle.arrays.specs.Arrays.{ends_of};
ghost use Rattle.answer.specs.Arrays.{with_windows, AnswerIs};
ghost use Rattle.rows.specs.Growths.{GrowthsIn};
ghost use Rattle.rows.specs.Evaluate.{EvaluateAsks, Evaluated, PlaceRowAsks};

use answer::{fill_windows, growing_end};
use arrays::{Given, SpanTable, WindowGrowths};
use growth::growth_jump;
use scan::{Scan, scan_totals};
use solver::place_in;
use stack::{Placement, Stack};
use std::array;

// The growing ends of the strips' windows in a spread.
#[tactic(auto, using(stack::proofs::Within::few_channels))]
fn window_growths(stack: &Stack, spread: u32) -> WindowGrowths
    requires { within_limits (stack_of stack.now) ≡ true }
    ensures { GrowthsIn (stack_of stack.now) (suc stack.now.count) spread (ends_of result) }
{
    array::from_fn(|i| growing_end(&stack.strips[i], spread))
}

// The windows of a spread, and the first total up to cap that can be had in it. Where every window's end grows with the spread the scan's own jump is right.
pub fn evaluate(
    stack: &Stack,
    spread: u32,
    cap: usize,
    given: &mut Given,
    table: &mut SpanTable,
) -> Scan
    requires { EvaluateAsks stack.now spread cap given.old table.old }
    ensures kept { given.new ≡ with_windows given.old given.new.windows }
    ensures evaluated { Evaluated stack.now spread cap given.new table.new result }
{
    let least = fill_windows(stack, spread, &mut given.windows);
    let scan = scan_totals(given, cap, table);
    if least.is_some() {
        return scan;
    }
    let growths = window_growths(stack, spread);
    let total = scan.total;
    let jump = growth_jump(given, &growths, total, table);
    Scan { total, jump }
}

// The answer for a spread whose total was found. The stack and the spread are read by the contract alone: what is given stands for them.
pub fn place_row(
    stack: &Stack,
    spread: u32,
    scan: Scan,
    given: &Given,
    table: &SpanTable,
) -> Placement
    requires { PlaceRowAsks stack.now spread given.now table.now scan }
    ensures { AnswerIs (stack_of stack.now) spread result }
{
    place_in(given, scan.total, table)
}
