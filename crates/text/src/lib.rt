// The refusals of documents 01 and 02 with their lines and fields, and the layout of a line of any kind.
#![tactic(auto)]

ghost use Rattle.std.specs.Prelude.{◌≡◌, true, ◌^◌, ◌≤◌, ◌<◌, length, replicate, IfSome};
ghost use Rattle.lines.specs.Lines.{line_of, numbers_of};
ghost use Rattle.lines.specs.Numbers.{field_if_any};
ghost use Rattle.text.specs.Text.{exactly, one_or_three, in_pairs, misplaced};
ghost use Rattle.text.specs.Outcome.{number_of, refusal_of, refused};
ghost use Rattle.text.specs.Kinds.{fault_of, layout_found, accepted, IsKindRead};

use lines::{KEPT, Line, read_line};

// A stack's text has at most so many bytes.
pub const MAX_BYTES: usize = 8192;

// The refusals of documents 01 and 02, numbered from 1 in this order.
#[derive(Clone, Copy, Debug, PartialEq, Eq)]
pub enum Refusal {
    Overlong = 1,
    Layout,
    Crowd,
    Length,
    Overhang,
    Crossing,
    Narrow,
    ShortSpace,
    Broad,
    Unmet,
    Count,
    IllFormed,
    Empty,
    Inverted,
}

impl Refusal {
    pub fn number(self) -> u32
        ensures { result ≡ number_of self }
    {
        self as u32
    }
}

// A refusal at its line and field, both from 1, and 0 where it concerns none: document 01 has line 0 and field 0 there, and they are printed.
#[derive(Clone, Copy, Debug, PartialEq, Eq)]
pub struct Refused {
    pub why: Refusal,
    pub line: u32,
    pub field: u32,
}

impl Refused {
    pub fn new(why: Refusal, line: u32, field: u32) -> Refused
        ensures { result ≡ refused why line field }
    {
        Refused { why, line, field }
    }
}

// The field at which a count of numbers is at fault where so many are due: the first missing or the first extra.
#[tactic(auto, using(std::proofs::lemmas::Bool::Decides::nat_tests), unfolding(crate::specs::Text::exactly))]
fn exactly(due: usize, count: usize) -> Option<usize>
    requires { count < 2 ^ 63 }
    ensures { result ≡ field_if_any (exactly due count) }
{
    if count < due {
        return Some(count + 2);
    }
    if due < count {
        return Some(due + 2);
    }
    None
}

// The same where one number is due, or three.
#[tactic(auto, using(std::proofs::lemmas::Bool::Decides::nat_tests), unfolding(crate::specs::Text::one_or_three))]
fn one_or_three(count: usize) -> Option<usize>
    requires { count < 2 ^ 63 }
    ensures { result ≡ field_if_any (one_or_three count) }
{
    exactly(if count <= 1 { 1 } else { 3 }, count)
}

// The same where numbers come in pairs: the missing partner.
#[tactic(auto, using(std::proofs::lemmas::Bool::Decides::nat_tests), unfolding(crate::specs::Text::in_pairs))]
fn in_pairs(numbers: usize) -> Option<usize>
    requires { numbers < 2 ^ 63 }
    ensures { result ≡ field_if_any (in_pairs numbers) }
{
    if numbers % 2 == 0 {
        return None;
    }
    Some(numbers + 2)
}

// How many numbers a kind of line may have.
#[derive(Clone, Copy, Debug, PartialEq, Eq)]
pub enum Counts {
    Exactly(usize),
    OneOrThree,
    InPairs,
    Any,
}

impl Counts {
    // The field at which a count is at fault.
    fn fault(self, count: usize) -> Option<usize>
        requires { count < 2 ^ 63 }
        ensures { result ≡ field_if_any (fault_of self count) }
    {
        match self {
            Counts::Exactly(due) => exactly(due, count),
            Counts::OneOrThree => one_or_three(count),
            Counts::InPairs => in_pairs(count),
            Counts::Any => None,
        }
    }
}

// The layout of line n: whether it has its word, the field at which its count of numbers is at fault, then the first that is no number.
#[tactic(auto, unfolding(crate::specs::Kinds::layout_found, crate::specs::Text::or_else, crate::specs::Text::fine, crate::specs::Text::refusal))]
fn test_layout(
    worded: bool,
    fault: Option<usize>,
    ill: Option<usize>,
    n: u32,
) -> Result<(), Refused>
    requires fault_small { IfSome fault (λ field. field < 2 ^ 32) }
    requires ill_small { IfSome ill (λ field. field < 2 ^ 32) }
    ensures { refusal_of result ≡ layout_found worded fault ill n }
{
    if !worded {
        return Err(Refused::new(Refusal::Layout, n, 0));
    }
    if let Some(field) = fault {
        return Err(Refused::new(Refusal::Count, n, field as u32));
    }
    if let Some(field) = ill {
        return Err(Refused::new(Refusal::IllFormed, n, field as u32));
    }
    Ok(())
}

// Whether line n may have so many numbers.
pub fn test_count(counts: Counts, count: u16, n: u32) -> Result<(), Refused>
    ensures { refusal_of result ≡ misplaced 11 n 0 (fault_of counts count) }
{
    test_layout(true, counts.fault(usize::from(count)), None, n)
}

// A line as one of a kind: its layout, and how many numbers it has, also where the layout is refused.
#[derive(Clone, Copy)]
pub struct KindRead {
    pub layout: Result<(), Refused>,
    pub count: usize,
}

impl KindRead {
    // How many numbers the line has, where its layout is good, or why it is not.
    pub fn accepted(self) -> Result<usize, Refused>
        ensures { result ≡ accepted self.layout self.count }
    {
        self.layout?;
        Ok(self.count)
    }
}

// Line n as a line of a kind, by its word and how many numbers it may have. The first numbers come into these places, which are zeros before.
// That a line has at most 8,192 bytes, as a text has, and that the places are zeros, is asked in the contract: types with these invariants would ask more of callers.
// A line and its number stay two parameters: the number is told in refusals alone; `read_line` has a line without one, and `test_count` a number without a line.
pub fn read_kind(
    line: Line,
    n: u32,
    word: &[u8],
    counts: Counts,
    values: &mut [u32; KEPT],
) -> KindRead
    requires { (length line.bytes.now ≤ 8192) × (values.old ≡ replicate 64 0) }
    ensures read { IsKindRead word.now (λ c. fault_of counts c) n (line_of line.entry) (accepted result.layout result.count) values.new }
    ensures count { result.count ≡ length (numbers_of (line_of line.entry)) }
{
    let read = read_line(line, word, values);
    let fault = counts.fault(read.count);
    KindRead {
        layout: test_layout(read.worded, fault, read.ill, n),
        count: read.count,
    }
}
