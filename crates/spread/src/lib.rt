// One spread of a stack: the least total, and the placement for a stated total, or what is refused.
#![tactic(auto)]

ghost use Rattle.std.specs.Prelude.{◌≡◌, true};
ghost use Rattle.stack.specs.Value.{stack_of};
ghost use Rattle.stack.specs.Limits.{within_limits};
ghost use Rattle.text.specs.Outcome.{refusal_of};
ghost use Rattle.reply.specs.Refusals.{narrow_refusal};
ghost use Rattle.spread.specs.Answers.{TotalOr, PlacementOr};
ghost use Rattle.spread.specs.Single.{one_strip};

use answer::{placement_in, total_in};
use reply::{narrow_outcome, spread_outcome};
use stack::{Columns, Placement, Stack, Strip, Tracks};
use text::{Refusal, Refused};

// The least total of a stack in a spread, or 7. Nothing is placed.
pub fn total_of(stack: &Stack, spread: u32) -> Result<Tracks, Refused>
    requires { within_limits (stack_of stack.now) ≡ true }
    ensures { TotalOr (narrow_refusal (stack_of stack.now) spread) (stack_of stack.now) spread result }
{
    spread_outcome(stack, spread)?;
    Ok(total_in(stack, spread))
}

// The placement of a stack in a spread for a stated total, or the first refusal that applies: 7, then 10.
pub fn placement_of(stack: &Stack, spread: u32, total: Tracks) -> Result<Placement, Refused>
    requires { within_limits (stack_of stack.now) ≡ true }
    ensures { PlacementOr (narrow_refusal (stack_of stack.now) spread) (stack_of stack.now) spread total.0 result }
{
    spread_outcome(stack, spread)?;
    placement_in(stack, spread, total).ok_or(Refused::new(Refusal::Unmet, 0, 0))
}

// Whether a single strip can be asked for a spread: not one below its length.
fn single_outcome(strip: Strip, spread: u32) -> Result<(), Refused>
    ensures { refusal_of result ≡ narrow_refusal (one_strip strip.length.0) spread }
{
    narrow_outcome(strip.length.0 as u64, spread)
}

// The least total of a single strip in a spread, 0, or 7.
pub fn single_total(strip: Strip, spread: u32) -> Result<Tracks, Refused>
    ensures { TotalOr (narrow_refusal (one_strip strip.length.0) spread) (one_strip strip.length.0) spread result }
{
    single_outcome(strip, spread)?;
    Ok(Tracks(0))
}

// The placement of a single strip in a spread for a stated total, at position 0; or 7, then 10 but for 0.
pub fn single_placement(strip: Strip, spread: u32, total: Tracks) -> Result<Placement, Refused>
    ensures { PlacementOr (narrow_refusal (one_strip strip.length.0) spread) (one_strip strip.length.0) spread total.0 result }
{
    single_outcome(strip, spread)?;
    if total.0 != 0 {
        return Err(Refused::new(Refusal::Unmet, 0, 0));
    }
    Ok(Placement {
        total,
        separations: [Tracks(0); Stack::MAX_CHANNELS],
        positions: [Columns(0); Stack::STRIPS],
    })
}
