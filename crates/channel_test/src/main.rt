// Prints the limits and the feasibility of the channels in standard input, for comparison with what another program made of the same input.
// Input: how many channels; for each its count of pairs, p(0), q(0), p(1), q(1) and so on, how many pairs of positions, and those.
#![tactic(auto)]

ghost use Rattle.std.specs.Prelude.{◌≤◌};

use arrays::ChannelLimits;
use channel::{channel_limits, open_from};
use feasibility::is_feasible;
use stack::{Columns, Stack, Strip, Terminals, Tracks};
use test_io::{next_number, print_bytes, print_number, read_full};

// What is printed passes a failed write over, as `print_bytes` does: the status does not tell of it.

// A biased number, with its sign.
fn print_biased(to: &impl Print, v: u64) {
    if v < Stack::BIAS {
        print_bytes(to, b"-");
    }
    print_number(to, v.abs_diff(Stack::BIAS));
}

fn print_range(to: &impl Print, low: u64, high: u64) {
    print_bytes(to, b"\t");
    print_biased(to, low);
    print_bytes(to, b" to ");
    print_biased(to, high);
}

// The limits of the first so many separations.
fn print_limits(to: &impl Print, limits: &ChannelLimits, separations: usize) {
    for (low, high) in limits.low.iter().zip(&limits.high).take(separations) {
        print_range(to, *low, *high);
    }
    print_bytes(to, b"\n");
}

// For each separation up to two more than the count of pairs, 1 if the channel, with floor 0, is feasible with the strips at these positions.
fn print_feasible(to: &impl Print, terminals: &Terminals, lower: Columns, upper: Columns)
    requires { terminals.now.count ≤ 32 }
{
    // t is the separation itself.
    for t in 0..terminals.count as u32 + 3 {
        let feasible = is_feasible(terminals, Tracks(0), Tracks(t), lower, upper);
        print_bytes(to, if feasible { b"1" } else { b"0" });
    }
    print_bytes(to, b"\n");
}

fn print_positions(to: &impl Print, lower: u32, upper: u32) {
    print_number(to, u64::from(lower));
    print_bytes(to, b" ");
    print_number(to, u64::from(upper));
    print_bytes(to, b": ");
}

fn print_all_feasible(to: &impl Print, terminals: &Terminals, text: &[u8], from: usize) -> usize
    requires { terminals.now.count ≤ 32 }
{
    let queries = next_number(text, from);
    let mut at = queries.at;
    // The queries follow each other in the text, so that each begins at the place where the one before it ends.
    for _ in 0..queries.value {
        let lower = next_number(text, at);
        let upper = next_number(text, lower.at);
        print_positions(to, lower.value, upper.value);
        print_feasible(to, terminals, Columns(lower.value), Columns(upper.value));
        at = upper.at;
    }
    at
}

fn read_values(text: &[u8], from: usize, count: usize, values: &mut [u32; 64]) -> usize {
    let mut at = from;
    // Numbers past the space are read too, since what follows begins behind them.
    for j in 0..count {
        let number = next_number(text, at);
        at = number.at;
        if let Some(value) = values.get_mut(j) {
            *value = number.value;
        }
    }
    at
}

fn channel(to: &impl Print, text: &[u8], from: usize) -> usize {
    let pairs = next_number(text, from);
    let m = pairs.value as usize % 64;
    let mut values = [0; 64];
    let at = read_values(text, pairs.at, 2 * m, &mut values);
    let longest = Columns(Strip::MAX_LENGTH);
    match Terminals::new(&values, m, longest, longest) {
        Ok(terminals) => {
            print_bytes(to, b"pairs ");
            print_number(to, m as u64);
            let limits = channel_limits(&terminals, Tracks(0));
            print_limits(to, &limits, open_from(terminals.count));
            print_all_feasible(to, &terminals, text, at)
        }
        Err(_) => {
            print_bytes(to, b"refused\n");
            at
        }
    }
}

fn main(rt: HostRuntime) {
    let mut text = [0; 65536];
    let mut input = rt.stdin();
    let n = read_full(&mut input, &mut text);
    let channels = next_number(&text[..n], 0);
    let mut at = channels.at;
    // Each channel begins at the place where the one before it ends.
    for _ in 0..channels.value {
        at = channel(&rt, &text[..n], at);
    }
}
