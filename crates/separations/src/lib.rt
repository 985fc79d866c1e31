// The separations of a stack for a total, channel 1 first, from windows, limits and a table of spans.
#![tactic(auto)]

ghost use Rattle.std.specs.Prelude.{◌≡◌, ◌<◌, replicate};
ghost use Rattle.stack.specs.Value.{tracks_of};
ghost use Rattle.stack.specs.Sizes.{channels_held, separations_held};
ghost use Rattle.spans.specs.Solver.{stop, first_serving, separations};
ghost use Rattle.arrays.specs.Arrays.{bias, low_in, high_in, span_at, window_of, levels, store};
ghost use Rattle.separations.specs.Separations.{ServeAsks, SeparateAsks};

use arrays::{ChannelLimits, Given, SpanTable, StripSpans};
use spans::Span;
use stack::{Stack, Tracks};

// One past the last separation of use.
fn stop(last: usize, v: usize) -> usize
    requires { last < separations_held }
    ensures { result ≡ stop last v }
{
    v.min(last) + 1
}

// The least separation of a channel, from least on, that serves with total v, for the strip below in s; if none does, one past the last of use, or least if
// that is greater, as `first_serving` has it, and no Option: what follows goes on with it as with any separation.
fn serving(
    limits: &ChannelLimits,
    spans: &StripSpans,
    least: usize,
    last: usize,
    above: usize,
    s: Span,
    v: usize,
) -> usize
    requires { ServeAsks limits.now last above s }
    ensures { result ≡ first_serving bias (low_in limits.now) (high_in limits.now) least last above (span_at spans.now) s v }
{
    let end = stop(last, v);
    (least..end)
        .find(|q| {
            let span = spans.at((v - *q).min(above));
            let t = limits.forward(*q, s, span);
            t.from < t.upto
        })
        .unwrap_or(least.max(end))
}

// The separations for a total, channel 1 first, from the table of spans; zeros in unused places.
pub fn separations_for(
    given: &Given,
    total: usize,
    table: &SpanTable,
) -> [Tracks; Stack::MAX_CHANNELS]
    requires { SeparateAsks given.now total table.now }
    ensures { tracks_of result ≡ store (replicate channels_held 0) 0 (separations bias (window_of given.now 0) (levels given.now 0 given.now.channels) total) }
{
    let k = given.channels;
    let mut ts = [Tracks(0); Stack::MAX_CHANNELS];
    let mut s = given.windows[0];
    let mut v = total;
    // By number: each channel goes on from the span and the total that the one below it leaves.
    for i in 0..k - 1 {
        let limits = &given.limits[i];
        let least = given.plan.leasts[i];
        let last = given.plan.lasts[i];
        let above = given.plan.above[i + 1];
        let q = serving(limits, &table[i + 1], least, last, above, s, v);
        ts[i] = Tracks(q as u32);
        s = limits.forward(q.min(last), s, given.windows[i + 1]);
        v = v.saturating_sub(q);
    }
    ts[k - 1] = Tracks(v as u32);
    ts
}
