// Stacks of strips and channels, with the limits of documents 01 and 02 as constants of the types and constructors that test them.
#![tactic(auto)]

ghost use Rattle.std.specs.Prelude.{◌≡◌, [], ◌∷◌, ◌++◌, ◌-◌, ◌≤◌, ◌<◌, get_or, OnOk};
ghost use Rattle.std.specs.Result.{result_err};
ghost use Rattle.stack.specs.Stack.{pair, free, held, reach};
ghost use Rattle.stack.specs.Value.{columns, strip_of, channel_of};
ghost use Rattle.stack.specs.Made.{
  strip_made,
  not_above,
  pair_fault,
  IsTerminalsMade,
  IsStackMade,
  StripSet,
  ChannelSet,
  FloorSet,
  NumberOf,
};

// A count of tracks: a separation. Document 01, "Strips, columns and tracks".
#[derive(Clone, Copy, Debug, PartialEq, Eq, PartialOrd, Ord)]
pub struct Tracks(pub u32);

// A count of columns: a position, a terminal or a length. Document 01, "Strips, columns and tracks".
#[derive(Clone, Copy, Debug, PartialEq, Eq, PartialOrd, Ord)]
pub struct Columns(pub u32);

// Where a strip that is held may stand: from a least to a greatest position.
#[derive(Clone, Copy, Debug, PartialEq, Eq)]
pub struct Window {
    pub least: Columns,
    pub greatest: Columns,
}

// A strip of components. With a window it is held there, else it is free and may stand anywhere.
#[derive(Clone, Copy, Debug, PartialEq, Eq)]
pub struct Strip {
    pub length: Columns,
    pub window: Option<Window>,
}

// The limit that a strip's numbers do not keep: its length, or the order or the end of its window.
#[derive(Clone, Copy, Debug, PartialEq, Eq)]
pub enum StripFault {
    Length,
    Inverted,
}

impl Strip {
    pub const MIN_LENGTH: u32 = 1;

    pub const MAX_LENGTH: u32 = 1000;

    pub const MAX_POSITION: u32 = 9999;

    // A free strip.
    #[tactic(auto, using(std::proofs::lemmas::Bool::Decides::nat_tests), unfolding(crate::specs::Made::strip_made, crate::specs::Made::strip_with, crate::specs::Limits::window_within))]
    pub fn new(length: u32) -> Result<Strip, StripFault>
        ensures { result ≡ strip_made length free }
    {
        if length < Strip::MIN_LENGTH || Strip::MAX_LENGTH < length {
            return Err(StripFault::Length);
        }
        Ok(Strip {
            length: Columns(length),
            window: None,
        })
    }

    // A strip held from a least to a greatest position.
    #[tactic(auto, using(std::proofs::lemmas::Bool::Decides::nat_tests), unfolding(crate::specs::Made::strip_made, crate::specs::Made::strip_with, crate::specs::Limits::window_within))]
    pub fn held(length: u32, least: u32, greatest: u32) -> Result<Strip, StripFault>
        ensures { result ≡ strip_made length (held least greatest) }
    {
        let free = Strip::new(length)?;
        if greatest < least || Strip::MAX_POSITION < greatest {
            return Err(StripFault::Inverted);
        }
        Ok(Strip {
            length: free.length,
            window: Some(Window {
                least: Columns(least),
                greatest: Columns(greatest),
            }),
        })
    }

    // The length with the least position.
    #[tactic(auto, unfolding(crate::specs::Value::window_of, crate::specs::Stack::least_position))]
    pub fn reach(self) -> u64
        ensures { NumberOf (reach (strip_of self)) result }
    {
        let least = match self.window {
            Some(window) => window.least.0,
            None => 0,
        };
        u64::from(self.length.0) + u64::from(least)
    }
}

// The terminals of a channel's pairs: pair j joins lower[j] to upper[j]; places from count on are unused.
// Two arrays and not one of pairs: limits are worked out and order is tested an edge at a time (`narrowed` in channel, `is_not_above`). Document 01 names terminals
// as arrays by value, and nothing is allocated, so they have 32 places and their count. That the count is at most 32 is asked in contracts: an invariant of the type
// would ask more of callers (`set_terminals` takes any terminals).
#[derive(Clone, Copy)]
pub struct Terminals {
    pub lower: [Columns; Terminals::MAX_PAIRS],
    pub upper: [Columns; Terminals::MAX_PAIRS],
    pub count: usize,
}

// The limit that terminals do not keep: their number, or at a place in p(0), q(0), p(1), q(1) and so on their strip's end or their order.
#[derive(Clone, Copy, Debug, PartialEq, Eq)]
pub enum TerminalsFault {
    Crowd,
    Overhang(usize),
    Crossing(usize),
}

impl Terminals {
    pub const MAX_PAIRS: usize = 32;

    #[tactic(auto, unfolding(crate::specs::Value::channel_of, numbers::specs::Lists::tabulate))]
    pub fn none() -> Terminals
        ensures { channel_of result ≡ [] }
    {
        Terminals {
            lower: [Columns(0); Terminals::MAX_PAIRS],
            upper: [Columns(0); Terminals::MAX_PAIRS],
            count: 0,
        }
    }

    // Whether one pair more keeps the limits.
    #[tactic(auto, using(std::proofs::lemmas::Bool::Decides::nat_tests, crate::proofs::Found::fault_in_places))]
    fn test_pair(
        &self,
        p: u32,
        q: u32,
        lower: Columns,
        upper: Columns,
    ) -> Result<(), TerminalsFault>
        ensures fault { result_err result ≡ pair_fault (channel_of self.now) lower.0 upper.0 p q }
        ensures room { OnOk result (self.now.count < 32) }
    {
        let n = self.count;
        if Terminals::MAX_PAIRS <= n {
            return Err(TerminalsFault::Crowd);
        }
        if lower.0 < p {
            return Err(TerminalsFault::Overhang(2 * n));
        }
        if is_not_above(&self.lower, n, p) {
            return Err(TerminalsFault::Crossing(2 * n));
        }
        if upper.0 < q {
            return Err(TerminalsFault::Overhang(2 * n + 1));
        }
        if is_not_above(&self.upper, n, q) {
            return Err(TerminalsFault::Crossing(2 * n + 1));
        }
        Ok(())
    }

    // One pair more, where it keeps the limits.
    #[tactic(auto, using(crate::proofs::Values::channel_longer))]
    fn push(&mut self, p: u32, q: u32, lower: Columns, upper: Columns) -> Result<(), TerminalsFault>
        ensures fault { result_err result ≡ pair_fault (channel_of self.old) lower.0 upper.0 p q }
        ensures pairs { OnOk result (channel_of self.new ≡ channel_of self.old ++ pair p q ∷ []) }
    {
        self.test_pair(p, q, lower, upper)?;
        let n = self.count;
        self.lower[n] = Columns(p);
        self.upper[n] = Columns(q);
        self.count = n + 1;
        Ok(())
    }

    // The pairs of terminals that stand in the order p(0), q(0), p(1), q(1) and so on, on strips of these lengths.
    // `lower` and `upper` stay two parameters: they are lengths here and positions in feasibility and plot, which one struct would not tell apart, and each is used
    // alone, `lower` with p and `upper` with q.
    #[tactic(auto, using(crate::proofs::Found::making))]
    pub fn new(
        values: &[u32; 2 * Terminals::MAX_PAIRS],
        pairs: usize,
        lower: Columns,
        upper: Columns,
    ) -> Result<Terminals, TerminalsFault>
        ensures { IsTerminalsMade values.now pairs lower.0 upper.0 result }
    {
        if Terminals::MAX_PAIRS < pairs {
            return Err(TerminalsFault::Crowd);
        }
        let mut terminals = Terminals::none();
        let (all, _) = values.as_chunks::<2>();
        for [p, q] in &all[..pairs] {
            terminals.push(*p, *q, lower, upper)?;
        }
        Ok(terminals)
    }
}

// A terminal is not above the one before it, where there is one.
#[tactic(auto, using(std::proofs::lemmas::Bool::Decides::nat_tests), unfolding(crate::specs::Made::not_above))]
fn is_not_above(before: &[Columns; Terminals::MAX_PAIRS], n: usize, x: u32) -> bool
    requires { n < 32 }
    ensures { result ≡ not_above n (get_or before.now (n - 1) (columns 0)).0 x }
{
    n != 0 && x <= before[n - 1].0
}

// k channels and k + 1 strips, strip 0 at the bottom; of each channel its terminals and its floor. Places past them are unused.
// Document 01 names an array over the channels, and nothing is allocated, so there are as many places as a stack may have, with the count of channels.
// `floors` stands beside `channels`, since a session, which has no floors, hands its channels over as they are (`Session::stack`).
// That a stack is within the limits (`within_limits`), or its count within its own, is asked in contracts: an invariant of the type would ask more of callers
// (`set_strip` and its like take stacks that are not within the limits, and the fields are public, so that any count can be put).
#[derive(Clone, Copy)]
pub struct Stack {
    pub count: usize,
    pub strips: [Strip; Stack::STRIPS],
    pub channels: [Terminals; Stack::MAX_CHANNELS],
    pub floors: [Tracks; Stack::MAX_CHANNELS],
}

impl Stack {
    pub const MIN_CHANNELS: usize = 1;

    pub const MAX_CHANNELS: usize = 8;

    pub const MAX_FLOOR: u32 = 64;
    // From a separation of this many tracks on every channel is feasible at every offset: no less than the most pairs and the greatest floor.
    pub const MAX_SEPARATION: usize = Stack::MAX_FLOOR as usize;

    pub const MAX_TOTAL: usize = Stack::MAX_CHANNELS * Stack::MAX_SEPARATION;
    // The sizes of arrays with a place for each strip, each separation from 0 and each total from 0.
    pub const STRIPS: usize = Stack::MAX_CHANNELS + 1;

    pub const SEPARATIONS: usize = Stack::MAX_SEPARATION + 1;

    pub const TOTALS: usize = Stack::MAX_TOTAL + 1;
    // Added to offsets and limits, so that none is negative: more than any position and terminal together.
    pub const BIAS: u64 = 8_589_934_592;

    // k channels without pairs, with floor 0, between the shortest strips.
    #[tactic(auto, using(std::proofs::lemmas::Bool::Decides::nat_tests, crate::proofs::Values::bare_stack))]
    pub fn new(k: usize) -> Option<Stack>
        ensures { IsStackMade k result }
    {
        if k < Stack::MIN_CHANNELS || Stack::MAX_CHANNELS < k {
            return None;
        }
        let shortest = Strip {
            length: Columns(Strip::MIN_LENGTH),
            window: None,
        };
        Some(Stack {
            count: k,
            strips: [shortest; Stack::STRIPS],
            channels: [Terminals::none(); Stack::MAX_CHANNELS],
            floors: [Tracks(0); Stack::MAX_CHANNELS],
        })
    }

    // Another strip at a place.
    #[tactic(auto, using(crate::proofs::Values::strip_stored))]
    pub fn set_strip(&mut self, i: usize, strip: Strip)
        requires { (i ≤ self.old.count) × (self.old.count ≤ 8) }
        ensures { StripSet self.old i (strip_of strip) self.new }
    {
        self.strips[i] = strip;
    }

    // Other terminals in a channel.
    #[tactic(auto, using(crate::proofs::Values::channel_stored))]
    pub fn set_terminals(&mut self, i: usize, terminals: Terminals)
        requires { (i < self.old.count) × (self.old.count ≤ 8) }
        ensures { ChannelSet self.old i (channel_of terminals) self.new }
    {
        self.channels[i] = terminals;
    }

    // Another floor in a channel.
    #[tactic(auto, using(crate::proofs::Values::floor_stored))]
    pub fn set_floor(&mut self, i: usize, floor: Tracks)
        requires { (i < self.old.count) × (self.old.count ≤ 8) }
        ensures { FloorSet self.old i floor.0 self.new }
    {
        self.floors[i] = floor;
    }
}

// A placement of a stack's strips: its total, its separations from channel 1 up, its positions from strip 0 up; zeros in unused places. Document 01 has both by value.
#[derive(Clone, Copy)]
pub struct Placement {
    pub total: Tracks,
    pub separations: [Tracks; Stack::MAX_CHANNELS],
    pub positions: [Columns; Stack::STRIPS],
}
