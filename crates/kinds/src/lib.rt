// The readers of each kind of line: what it holds, or why not. What they share is `read_kind`; they differ in what the numbers make and in what these are tested by
// (nothing else, two lengths, k and a channel).
#![tactic(auto)]

ghost use Rattle.std.specs.Prelude.{◌≡◌, [], ◌∷◌, ◌≤◌, ◌<◌, length, IfOk, unwrap_or};
ghost use Rattle.lines.specs.Lines.{line_of};
ghost use Rattle.text.specs.Text.{entry, gap_content};
ghost use Rattle.text.specs.Outcome.{refusal_of};
ghost use Rattle.kinds.specs.Readers.{
  HeadRead,
  strip_refused,
  part_made,
  PartContent,
  IsPartRead,
  place,
  terminals_refused,
  NetsSupplied,
  IsNetsRead,
  gap,
  IsGapRead,
};

use lines::{KEPT, Line};
use stack::{Columns, Stack, Strip, StripFault, Terminals, TerminalsFault, Tracks};
use text::{Counts, Refusal, Refused, read_kind};

// STACK: k channels without pairs, or why not.
// That a line has at most 8,192 bytes, as a text has, is asked in contracts: a type with that invariant would ask more of callers.
pub fn read_head(line: Line) -> Result<Stack, Refused>
    requires { length line.bytes.now ≤ 8192 }
    ensures { HeadRead (line_of line.entry) result }
{
    let mut values = [0; KEPT];
    read_kind(line, 1, b"STACK", Counts::Exactly(1), &mut values).accepted()?;
    Stack::new(values[0] as usize).ok_or(Refused::new(Refusal::Crowd, 1, 2))
}

// The refusal of line n for the limit that its strip does not keep.
fn strip_refused(fault: StripFault, n: u32) -> Refused
    ensures { result ≡ strip_refused n fault }
{
    match fault {
        StripFault::Length => Refused::new(Refusal::Length, n, 2),
        StripFault::Inverted => Refused::new(Refusal::Inverted, n, 4),
    }
}

// The strip that was made of the numbers that line n supplies, or why not.
fn part_made(made: Result<Strip, StripFault>, n: u32) -> Result<Strip, Refused>
    ensures { result ≡ part_made n made }
{
    made.map_err(|fault| strip_refused(fault, n))
}

// The free strip of a length that line n supplies, or why not.
pub fn part_content(length: u32, n: u32) -> Result<Strip, Refused>
    ensures { PartContent n (length ∷ []) result }
{
    part_made(Strip::new(length), n)
}

// PART at line n: its strip, or why not.
pub fn read_part(line: Line, n: u32) -> Result<Strip, Refused>
    requires { length line.bytes.now ≤ 8192 }
    ensures { IsPartRead n (line_of line.entry) result }
{
    let mut values = [0; KEPT];
    let count = read_kind(line, n, b"PART", Counts::OneOrThree, &mut values).accepted()?;
    if count == 1 {
        return part_content(values[0], n);
    }
    part_made(Strip::held(values[0], values[1], values[2]), n)
}

// The refusal of line n for the limit that its terminals do not keep: place i in p(0), q(0), p(1), q(1) and so on is field i + 2.
fn terminals_refused(fault: TerminalsFault, n: u32) -> Refused
    requires { place fault < 64 }
    ensures { result ≡ terminals_refused n fault }
{
    match fault {
        TerminalsFault::Crowd => Refused::new(Refusal::Crowd, n, 66),
        TerminalsFault::Overhang(i) => Refused::new(Refusal::Overhang, n, i as u32 + 2),
        TerminalsFault::Crossing(i) => Refused::new(Refusal::Crossing, n, i as u32 + 2),
    }
}

// The terminals that line n supplies between two strips of these lengths, or why not: so many numbers, an even count, of which the first 64 are in these places.
#[tactic(auto, using(crate::proofs::Nets::fault_small, crate::proofs::Nets::numbers_refused))]
pub fn nets_content(
    values: &[u32; KEPT],
    count: usize,
    n: u32,
    lower: Columns,
    upper: Columns,
) -> Result<Terminals, Refused>
    ensures { NetsSupplied lower.0 upper.0 n values.now count result }
{
    // By cases: a closure for `map_err` would have to ask that the fault's place is small.
    match Terminals::new(values, count / 2, lower, upper) {
        Ok(terminals) => Ok(terminals),
        Err(fault) => Err(terminals_refused(fault, n)),
    }
}

// NETS at line n between two strips of these lengths: the channel's terminals, or why not.
pub fn read_nets(line: Line, n: u32, lower: Columns, upper: Columns) -> Result<Terminals, Refused>
    requires { length line.bytes.now ≤ 8192 }
    ensures { IsNetsRead lower.0 upper.0 n (line_of line.entry) result }
{
    let mut values = [0; KEPT];
    let count = read_kind(line, n, b"NETS", Counts::InPairs, &mut values).accepted()?;
    nets_content(&values, count, n, lower, upper)
}

// What a GAP line says: the floor of a channel, which is counted from 1.
#[derive(Clone, Copy, Debug, PartialEq, Eq)]
pub struct Gap {
    pub channel: u32,
    pub floor: Tracks,
}

// GAP's channel and floor at line n, in a stack of k channels and behind a GAP of a channel, if there is one, or why not.
#[tactic(auto, using(std::proofs::lemmas::Bool::Decides::nat_tests), unfolding(text::specs::Text::gap_content, text::specs::Text::entry, text::specs::Text::first_of, text::specs::Text::second_of, text::specs::Text::fault_at, text::specs::Text::fine, text::specs::Text::refusal))]
fn gap_content(
    channel: u32,
    floor: u32,
    k: usize,
    before: Option<u32>,
    n: u32,
) -> Result<Gap, Refused>
    ensures outcome { refusal_of result ≡ gap_content k (unwrap_or before 0) (entry n 0 (channel ∷ floor ∷ [])) }
    ensures content { IfOk result (λ g. g ≡ gap channel floor) }
{
    if channel < 1 || k < channel as usize {
        return Err(Refused::new(Refusal::Crowd, n, 2));
    }
    if Stack::MAX_FLOOR < floor {
        return Err(Refused::new(Refusal::Crowd, n, 3));
    }
    if before.is_some_and(|last| channel <= last) {
        return Err(Refused::new(Refusal::Crossing, n, 2));
    }
    Ok(Gap {
        channel,
        floor: Tracks(floor),
    })
}

// GAP at line n, in a stack of k channels and behind a GAP of a channel, if there is one: its channel and floor, or why not.
pub fn read_gap(line: Line, n: u32, k: usize, before: Option<u32>) -> Result<Gap, Refused>
    requires { length line.bytes.now ≤ 8192 }
    ensures { IsGapRead k (unwrap_or before 0) n (line_of line.entry) result }
{
    let mut values = [0; KEPT];
    read_kind(line, n, b"GAP", Counts::Exactly(2), &mut values).accepted()?;
    gap_content(values[0], values[1], k, before, n)
}
