// The positions of a stack for separations that can be had, bottom strip first, each as far left as can be, from windows and limits.
#![tactic(auto)]

ghost use Rattle.std.specs.Prelude.{◌≡◌, ◌+◌, ◌-◌, min, max, replicate};
ghost use Rattle.stack.specs.Value.{tracks_of, columns_of};
ghost use Rattle.stack.specs.Sizes.{strips_held};
ghost use Rattle.spans.specs.Solver.{positions};
ghost use Rattle.arrays.specs.Arrays.{bias, low_in, window_of, levels, StackAsks, store, taken};
ghost use Rattle.positions.specs.Positions.{StartsAre, NextAsks, PositionAsks};

use arrays::{ChannelLimits, Given};
use stack::{Columns, Stack, Tracks};

// The first position of each strip from which the strips above can be placed with these separations.
fn starts_for(given: &Given, ts: &[Tracks; Stack::MAX_CHANNELS]) -> [u64; Stack::STRIPS]
    requires { StackAsks given.now }
    ensures { StartsAre given.now (tracks_of ts.now) 0 result }
{
    let k = given.channels;
    let mut s = given.windows[k];
    let mut starts = [0u64; Stack::STRIPS];
    starts[k] = s.from;
    // By number: each span goes on from the one above it.
    for i in (0..k).rev() {
        let q = (ts[i].0 as usize).min(given.plan.lasts[i]);
        s = given.limits[i].backward(q, s, given.windows[i]);
        starts[i] = s.from;
    }
    starts
}

// The position of the strip above, as far left as start and the strip below at x allow.
fn next(limits: &ChannelLimits, last: usize, q: u32, x: u64, start: u64) -> u64
    requires { NextAsks limits.now last x }
    ensures { result ≡ max start (x + low_in limits.now (min q last) - bias) }
{
    let p = last.min(q as usize);
    start.max((x + limits.low[p]).saturating_sub(Stack::BIAS))
}

// The positions for separations that can be had, bottom strip first, each as far left as can be; zeros in unused places.
pub fn positions_for(given: &Given, ts: &[Tracks; Stack::MAX_CHANNELS]) -> [Columns; Stack::STRIPS]
    requires { PositionAsks given.now (tracks_of ts.now) }
    ensures { columns_of result ≡ store (replicate strips_held 0) 0 (positions bias (window_of given.now 0) (levels given.now 0 given.now.channels) (taken (tracks_of ts.now) 0 given.now.channels)) }
{
    let starts = starts_for(given, ts);
    let mut xs = [Columns(0); Stack::STRIPS];
    let mut x = starts[0];
    xs[0] = Columns(x as u32);
    // By number: each position goes on from the one below it.
    for i in 0..given.channels {
        let last = given.plan.lasts[i];
        x = next(&given.limits[i], last, ts[i].0, x, starts[i + 1]);
        xs[i + 1] = Columns(x as u32);
    }
    xs
}
