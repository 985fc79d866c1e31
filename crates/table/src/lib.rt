// The table over all spreads: rows found by jumps from event to event, each written directly behind the line before it.
#![tactic(auto)]

ghost use Rattle.std.specs.Prelude.{◌≡◌, true, ◌+◌, ◌^◌, ◌≤◌, ◌<◌};
ghost use Rattle.stack.specs.Limits.{within_limits};
ghost use Rattle.stack.specs.Value.{stack_of};
ghost use Rattle.stack.specs.Stack.{first_spread};
ghost use Rattle.answer.specs.Arrays.{AnswerIs};
ghost use Rattle.rows.specs.Walk.{row_at};
ghost use Rattle.writing.specs.Output.{LinePutAt};
ghost use Rattle.writing.specs.TableText.{row_text};
ghost use Rattle.table.specs.Walking.{StepAsks, Stepping, TablePut};

use answer::fill_held;
use arrays::{Given, SpanTable, StripSpans};
use extent::{first_spread, last_position, lengths_sum};
use rows::{evaluate, place_row};
use stack::{Placement, Stack};
use writing::{put_head, put_row_at};

// A spread, its least total, how far the spread may grow before a smaller total can be had, and where the text ends. Before the first row: the first spread, a
// total above all, and a jump of 0. That total is one more than any of use, and not None: the next cap is a track less, as behind any row.
#[derive(Clone, Copy)]
struct Walk {
    spread: u32,
    total: usize,
    jump: u64,
    at: usize,
}

// The row of a spread's answer, written behind the text that ends at a place.
fn put_placed(stack: &Stack, spread: u32, placement: &Placement, out: &mut [u8], at: usize) -> usize
    requires { (at ≤ 2 ^ 32) × (within_limits (stack_of stack.now) ≡ true) × (first_spread (stack_of stack.now).strips ≤ spread) × AnswerIs (stack_of stack.now) spread placement.now }
    ensures { LinePutAt at (row_text (row_at (stack_of stack.now) spread)) out.old out.new result }
{
    put_row_at(out, at, stack.count, spread, *placement)
}

// The next event's spread, with its row if the total falls there.
fn step(stack: &Stack, w: Walk, given: &mut Given, table: &mut SpanTable, out: &mut [u8]) -> Walk
    requires { StepAsks stack.now w given.old table.old out.old }
    ensures { Stepping stack.now given.new table.new out.new result × (result.spread ≡ w.spread + w.jump) × (0 < result.jump) }
{
    let next = (w.spread as u64 + w.jump) as u32;
    let cap = w.total - 1;
    let scan = evaluate(stack, next, cap, given, table);
    if cap < scan.total {
        return Walk {
            spread: next,
            total: w.total,
            jump: scan.jump,
            at: w.at,
        };
    }
    let placement = place_row(stack, next, scan, given, table);
    let at = put_placed(stack, next, &placement, out, w.at);
    Walk {
        spread: next,
        total: scan.total,
        jump: scan.jump,
        at,
    }
}

// The table of a stack over the output's first bytes, each line if there is space for it; the whole table's length.
#[tactic(auto, using(stack::proofs::Within::few_channels, crate::proofs::Events::sum_widest, crate::proofs::Events::spread_fits, rows::proofs::Settled::widest_small))]
pub fn put_table(stack: &Stack, out: &mut [u8]) -> usize
    requires { within_limits (stack_of stack.now) ≡ true }
    ensures { TablePut (stack_of stack.now) out.new result }
{
    let mut given = Given::NONE;
    fill_held(stack, &mut given);
    let mut table = [StripSpans::NONE; Stack::STRIPS];
    let widest = last_position(stack) + lengths_sum(stack);
    let first = first_spread(stack) as u32;
    let beyond = given.plan.above[0] + 1;
    let at = put_head(out, stack.count);
    let mut w = Walk {
        spread: first,
        total: beyond,
        jump: 0,
        at,
    };
    // The spread goes on by jumps, so that there is nothing to count.
    while 0 < w.total && w.jump <= widest - w.spread as u64 {
        w = step(stack, w, &mut given, &mut table, out);
    }
    w.at
}
