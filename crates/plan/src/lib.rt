// The plan of a stack: what is worked out of its channels' limits once for all spreads.
#![tactic(auto)]

ghost use Rattle.std.specs.Prelude.{◌≡◌, ◌<◌};
ghost use Rattle.stack.specs.Sizes.{separations_held};
ghost use Rattle.spans.specs.Solver.{first_open};
ghost use Rattle.arrays.specs.Arrays.{low_in, high_in, SumsAre, LeastsAre};
ghost use Rattle.plan.specs.Plan.{LastsAsk, Planned};

use arrays::{ChannelLimits, Plan, StackLimits};
use stack::Stack;
use std::array;

// The least separation whose limit is open, or one past the last, as `first_open` has it, and no Option: what follows goes on with it as with any separation.
fn least_open(limits: &ChannelLimits, last: usize) -> usize
    requires { last < separations_held }
    ensures { result ≡ first_open (low_in limits.now) (high_in limits.now) last }
{
    (0..last + 1)
        .find(|q| limits.low[*q] <= limits.high[*q])
        .unwrap_or(last + 1)
}

// The least open separation of each channel.
fn least_opens(
    limits: &StackLimits,
    lasts: &[usize; Stack::STRIPS],
    k: usize,
) -> [usize; Stack::STRIPS]
    requires { LastsAsk lasts.now k }
    ensures { LeastsAre limits.now lasts.now k result }
{
    array::from_fn(|i| {
        if i < k {
            least_open(&limits[i], lasts[i])
        } else {
            0
        }
    })
}

// The sums of the last separations above each strip.
fn sums_above(lasts: &[usize; Stack::STRIPS], k: usize) -> [usize; Stack::STRIPS]
    requires { LastsAsk lasts.now k }
    ensures { SumsAre lasts.now k 0 result }
{
    let mut sums = [0usize; Stack::STRIPS];
    // By number: each sum goes on from the one above it.
    for i in (0..k).rev() {
        sums[i] = lasts[i] + sums[i + 1];
    }
    sums
}

// The plan of k channels with these limits and last separations of use.
pub fn plan_for(limits: &StackLimits, lasts: [usize; Stack::STRIPS], k: usize) -> Plan
    requires { LastsAsk lasts k }
    ensures { Planned limits.now lasts k result }
{
    Plan {
        lasts,
        leasts: least_opens(limits, &lasts, k),
        above: sums_above(&lasts, k),
    }
}
