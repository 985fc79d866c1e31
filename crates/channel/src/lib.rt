// The limits on a channel's offset.
#![tactic(auto)]

ghost use Rattle.std.specs.Prelude.{◌≡◌, true, ◌≤◌, get_or};
ghost use Rattle.stack.specs.Stack.{channel};
ghost use Rattle.stack.specs.Limits.{on_strips};
ghost use Rattle.stack.specs.Sizes.{separations_held};
ghost use Rattle.numbers.specs.Lists.{tabulate};
ghost use Rattle.stack.specs.Value.{columns, channel_of};
ghost use Rattle.limits.specs.Limits.{greatest, least, from_floor, open_from};
ghost use Rattle.channel.specs.Seeking.{term_bias, places_held, AtMost, narrowed, paired, raised, LimitsOf};

use arrays::ChannelLimits;
use stack::{Columns, Stack, Terminals, Tracks};

// Added to the terms of L(t) and R(t) while the greatest and the least are sought: more than two terminals together, so that no term is negative, and all fit 16 bits,
// of which the compiler takes eight at a time.
const TERM_BIAS: u16 = 2048;

// A place for each index of a pair with a separation added.
const PLACES: usize = 2 * Terminals::MAX_PAIRS;

// The terminals of an edge on 16 bits, and `rest` in the places behind the last.
#[tactic(auto, using(numbers::proofs::Lists::filled_starts), unfolding(crate::specs::Seeking::narrowed))]
fn narrowed(edge: &[Columns; Terminals::MAX_PAIRS], count: usize, rest: u16) -> [u16; PLACES]
    requires few { count ≤ 32 }
    requires small { AtMost 1000 count (λ j. (get_or edge.now j (columns 0)).0) }
    ensures { result ≡ narrowed edge.now count rest }
{
    let mut narrow = [rest; PLACES];
    // By index: `array::from_fn`, with `rest` from `count` on, was tried: totals took 4 to 30 % more instructions.
    for j in 0..count {
        narrow[j] = edge[j].0 as u16;
    }
    narrow
}

// The greatest of 32 terms p(i) + t - q(i + t), raised by TERM_BIAS.
#[tactic(auto, using(crate::proofs::Terms::greatest_steps), unfolding(limits::specs::Limits::greatest))]
fn greatest_term(p: &[u16; PLACES], q: &[u16; PLACES], t: usize) -> u16
    requires tracks { t ≤ 32 }
    requires p_small { AtMost 1000 places_held (λ j. get_or p.now j 0) }
    requires q_small { AtMost term_bias places_held (λ j. get_or q.now j 0) }
    ensures { result ≡ greatest term_bias (paired p.now q.now) t 32 }
{
    let tracks = t as u16;
    let mut greatest = 0;
    // By index, as the term is written: a zip of `p` and `q[t..]` is no plainer.
    for i in 0..Terminals::MAX_PAIRS {
        greatest = greatest.max(TERM_BIAS + p[i] + tracks - q[i + t]);
    }
    greatest
}

// The least of 32 terms p(i + t) - t - q(i), raised by TERM_BIAS: each is what the term q(i) + t - p(i + t) leaves of twice the bias.
#[tactic(auto, using(crate::proofs::Terms::least_left))]
fn least_term(p: &[u16; PLACES], q: &[u16; PLACES], t: usize) -> u16
    requires tracks { t ≤ 32 }
    requires p_small { AtMost term_bias places_held (λ j. get_or p.now j 0) }
    requires q_small { AtMost 1000 places_held (λ j. get_or q.now j 0) }
    ensures { result ≡ least term_bias (paired p.now q.now) t 32 }
{
    2 * TERM_BIAS - greatest_term(q, p, t)
}

// A term that is raised by TERM_BIAS, raised by Stack::BIAS.
fn raised(term: u16) -> u64
    ensures { result ≡ raised term }
{
    Stack::BIAS - TERM_BIAS as u64 + term as u64
}

// Another value for a row of limits below a floor.
fn close_below(row: &mut [u64; Stack::SEPARATIONS], floor: Tracks, closed: u64)
    requires { floor.0 ≤ 64 }
    ensures { row.new ≡ tabulate separations_held 0 (λ t. from_floor floor.0 closed (λ s. get_or row.old s 0) t) }
{
    row[..floor.0 as usize].fill(closed);
}

// The limits at every separation from a floor on, closed below it: with the lower edge clear (document 02, P4) L(t) and R(t) are those at t + 1, and those at 0 are those at 1.
// Behind the last pair stand zeros, and TERM_BIAS where t is added to the index. So a term past the last is less than every term of L(t), or greater than every term of R(t), and
// 32 terms can be taken for every t: a constant number, without a remainder of fewer than eight.
pub fn channel_limits(terminals: &Terminals, floor: Tracks) -> ChannelLimits
    requires few { (terminals.now.count ≤ 32) × (floor.0 ≤ 64) }
    requires on_strips { on_strips 1000 1000 (channel_of terminals.now) ≡ true }
    ensures { LimitsOf (channel (channel_of terminals.now) floor.0) result }
{
    let pairs = terminals.count;
    let lower = &terminals.lower;
    let upper = &terminals.upper;
    let p = narrowed(lower, pairs, 0);
    let q = narrowed(upper, pairs, 0);
    let p_on = narrowed(lower, pairs, TERM_BIAS);
    let q_on = narrowed(upper, pairs, TERM_BIAS);
    let mut low = [0u64; Stack::SEPARATIONS];
    let mut high = [2 * Stack::BIAS; Stack::SEPARATIONS];
    // By number: the separation goes into the terms, and into the places of both rows.
    for t in 0..pairs {
        low[t + 1] = raised(greatest_term(&p, &q_on, t));
        high[t + 1] = raised(least_term(&p_on, &q, t));
    }
    low[0] = low[1];
    high[0] = high[1];
    close_below(&mut low, floor, 2 * Stack::BIAS);
    close_below(&mut high, floor, 0);
    ChannelLimits { low, high }
}

// The separation from which on the limits of so many pairs leave every offset open: one more than there are pairs, and 0 without pairs.
pub fn open_from(pairs: usize) -> usize
    requires { pairs ≤ 32 }
    ensures { result ≡ open_from pairs }
{
    pairs + pairs.min(1)
}
