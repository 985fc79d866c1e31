// The trial of a placement: legal in a spread, or not.
#![tactic(auto)]

ghost use Rattle.std.specs.Prelude.{◌≡◌, ◌≤◌, true};
ghost use Rattle.stack.specs.Stack.{stands, in_spread, channels_good};
ghost use Rattle.stack.specs.Limits.{within_limits};
ghost use Rattle.stack.specs.Value.{strip_of, stack_of, tracks_of, columns_of};
ghost use Rattle.trial.specs.Legal.{all_zero, is_legal};
ghost use Rattle.trial.specs.Trying.{used_separations, used_positions};

use feasibility::is_feasible;
use stack::{Columns, Stack, Strip, Tracks};

// Separations are all zero.
fn are_tracks_zero(separations: &[Tracks]) -> bool
    ensures { result ≡ all_zero (tracks_of separations.now) }
{
    separations.iter().all(|separation| separation.0 == 0)
}

// Positions are all zero: one line, as of separations, over another type.
fn are_columns_zero(positions: &[Columns]) -> bool
    ensures { result ≡ all_zero (columns_of positions.now) }
{
    positions.iter().all(|position| position.0 == 0)
}

// A strip at a position ends within the spread and is inside its window.
#[tactic(auto, using(std::proofs::lemmas::Bool::Decides::nat_tests), unfolding(stack::specs::Stack::stands, stack::specs::Stack::in_window, stack::specs::Value::window_of))]
fn is_strip_within(position: Columns, strip: &Strip, spread: u32) -> bool
    ensures { result ≡ stands spread (strip_of strip.now) position.0 }
{
    if (spread as u64) < position.0 as u64 + strip.length.0 as u64 {
        return false;
    }
    match strip.window {
        Some(window) => window.least <= position && position <= window.greatest,
        None => true,
    }
}

// Every strip lies within the spread and inside its window.
fn is_in_spread(stack: &Stack, spread: u32, positions: &[Columns; Stack::STRIPS]) -> bool
    requires { stack.now.count ≤ 8 }
    ensures { result ≡ in_spread spread (stack_of stack.now).strips (used_positions stack.now positions.now) }
{
    let strips = stack.count + 1;
    (0..strips).all(|i| is_strip_within(positions[i], &stack.strips[i], spread))
}

// Every channel is feasible.
#[tactic(auto, using(stack::proofs::Within::few_channels, stack::proofs::Within::few_pairs))]
fn are_channels_feasible(
    stack: &Stack,
    separations: &[Tracks; Stack::MAX_CHANNELS],
    positions: &[Columns; Stack::STRIPS],
) -> bool
    requires { within_limits (stack_of stack.now) ≡ true }
    ensures { result ≡ channels_good (stack_of stack.now).channels (used_separations stack.now separations.now) (used_positions stack.now positions.now) }
{
    (0..stack.count).all(|i| {
        let (lower, upper) = (positions[i], positions[i + 1]);
        is_feasible(
            &stack.channels[i],
            stack.floors[i],
            separations[i],
            lower,
            upper,
        )
    })
}

// Document 01, "Choosing among equals": the trial. Separations and positions are two arguments there, and so here.
#[tactic(auto, using(stack::proofs::Within::few_channels, crate::proofs::Verdict::legal_parts))]
pub fn is_placement_legal(
    stack: &Stack,
    spread: u32,
    separations: [Tracks; Stack::MAX_CHANNELS],
    positions: [Columns; Stack::STRIPS],
) -> bool
    requires { within_limits (stack_of stack.now) ≡ true }
    ensures { result ≡ is_legal (stack_of stack.now) spread (tracks_of separations) (columns_of positions) }
{
    let k = stack.count;
    are_tracks_zero(&separations[k..])
        && are_columns_zero(&positions[k + 1..])
        && is_in_spread(stack, spread, &positions)
        && are_channels_feasible(stack, &separations, &positions)
}
