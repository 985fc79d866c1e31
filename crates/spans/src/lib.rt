// Spans of positions: the definitions of the least total and its placement, and their theorems.
#![tactic(auto)]

// A span of positions: from ≤ x < upto. A window is the span of the positions that a strip may take.
#[derive(Clone, Copy)]
pub struct Span {
    pub from: u64,
    pub upto: u64,
}
