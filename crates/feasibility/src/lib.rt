// The test whether a channel is feasible.
#![tactic(auto)]

ghost use Rattle.std.specs.Prelude.{◌≡◌, ◌≤◌};
ghost use Rattle.stack.specs.Stack.{channel, wirable, feasible};
ghost use Rattle.stack.specs.Value.{channel_of};
ghost use Rattle.feasibility.specs.Trying.{clear};

use stack::{Columns, Terminals, Tracks};

// Pair i joins p to q and pair i + t joins pt to qt: from p to qt, and from q to pt, it is at least t columns.
#[tactic(auto, unfolding(crate::specs::Trying::clear))]
fn is_clear(
    p: Columns,
    q: Columns,
    pt: Columns,
    qt: Columns,
    t: Tracks,
    lower: Columns,
    upper: Columns,
) -> bool
    ensures { result ≡ clear p.0 q.0 pt.0 qt.0 t.0 lower.0 upper.0 }
{
    let (p, q, pt, qt) = (p.0 as u64, q.0 as u64, pt.0 as u64, qt.0 as u64);
    let (t, lower, upper) = (t.0 as u64, lower.0 as u64, upper.0 as u64);
    p + t + lower <= upper + qt && upper + t + q <= pt + lower
}

// Document 01, "When a channel can be wired": its condition on the pairs with so many tracks, with the strips at these positions.
fn is_wirable(terminals: &Terminals, t: Tracks, lower: Columns, upper: Columns) -> bool
    requires { terminals.now.count ≤ 32 }
    ensures { result ≡ wirable (channel_of terminals.now) t.0 lower.0 upper.0 }
{
    let tracks = t.0 as usize;
    (0..terminals.count.saturating_sub(tracks)).all(|i| {
        is_clear(
            terminals.lower[i],
            terminals.upper[i],
            terminals.lower[i + tracks],
            terminals.upper[i + tracks],
            t,
            lower,
            upper,
        )
    })
}

// Feasible at a separation, with the strips at these positions: from the floor upward (document 02, P2), and wirable on the tracks between the edges (P4).
#[tactic(auto, using(std::proofs::lemmas::Bool::Decides::nat_tests, stack::proofs::Feasible::edge_clear_is), unfolding(stack::specs::Stack::feasible))]
pub fn is_feasible(
    terminals: &Terminals,
    floor: Tracks,
    t: Tracks,
    lower: Columns,
    upper: Columns,
) -> bool
    requires { terminals.now.count ≤ 32 }
    ensures { result ≡ feasible (channel (channel_of terminals.now) floor.0) t.0 lower.0 upper.0 }
{
    let between_edges = Tracks(t.0.saturating_sub(1));
    floor.0 <= t.0 && is_wirable(terminals, between_edges, lower, upper)
}
