// A text's lines: where each ends, and one reader for the lines of every word.
#![tactic(auto)]

ghost use Rattle.std.specs.Prelude.{◌≡◌, ◌^◌, ◌≤◌, ◌<◌, length, set, drop, replicate, IfSome};
ghost use Rattle.lines.specs.Lines.{line_of, fields};
ghost use Rattle.lines.specs.Cut.{run, line_from};
ghost use Rattle.lines.specs.Numbers.{
  sized,
  digits_read,
  field_read,
  NumbersRead,
  IsLineRead,
};

const TAB: u8 = b'\t';

const LINE_FEED: u8 = b'\n';

// A line of a text: its bytes, and whether a line feed ends it. That is a fact of its own: an ended and an unended line both have bytes.
#[derive(Clone, Copy, Debug, PartialEq, Eq)]
pub struct Line<'a> {
    pub bytes: &'a [u8],
    pub ended: bool,
}

// How many bytes stand before the first b; all, where there is none.
fn run(bytes: &[u8], b: u8) -> usize
    ensures { result ≡ run b bytes.now }
{
    bytes.iter().position(|x| *x == b).unwrap_or(bytes.len())
}

// The line that begins at a place; the next begins behind its line feed.
#[tactic(auto, using(crate::proofs::Places::run_length, crate::proofs::Places::line_cut))]
pub fn line_from(text: &[u8], at: usize) -> Line<'_>
    requires { at ≤ length text.now }
    ensures { line_of result ≡ line_from text.now at }
{
    let rest = &text[at..];
    let end = run(rest, LINE_FEED);
    Line {
        bytes: &rest[..end],
        ended: end < rest.len(),
    }
}

const MAX_DIGITS: usize = 4;

// A number's count of digits and its first digit: 1 to 4, and no leading zero save 0 itself.
#[tactic(auto, using(std::proofs::lemmas::Bool::Decides::nat_tests, crate::proofs::Digits::first_digit), unfolding(crate::specs::Numbers::sized))]
fn is_sized(field: &[u8]) -> bool
    ensures { result ≡ sized field.now }
{
    let digits = field.len();
    digits == 1 || 1 < digits && digits <= MAX_DIGITS && field[0] != b'0'
}

// The value of digits, if all bytes are digits; 0 of an empty text. Not by `parse`: it takes a `+` before digits, and no empty text.
#[tactic(auto, using(std::proofs::lemmas::Bool::Decides::nat_tests, crate::proofs::Digits::counting), unfolding(crate::specs::Lines::is_digit))]
pub fn read_digits(bytes: &[u8]) -> Option<u64>
    requires { length bytes.now ≤ 10 }
    ensures value { result ≡ digits_read bytes.now }
    ensures small { IfSome result (λ v. v < 10 ^ length bytes.now) }
{
    let mut value: u64 = 0;
    for x in bytes {
        if !x.is_ascii_digit() {
            return None;
        }
        value = 10 * value + u64::from(*x - b'0');
    }
    Some(value)
}

// A field's number, if it is one.
#[tactic(auto, using(crate::proofs::Digits::sizes))]
fn read_field(field: &[u8]) -> Option<u32>
    ensures { result ≡ field_read field.now }
{
    if !is_sized(field) {
        return None;
    }
    let value = read_digits(field)?;
    Some(value as u32)
}

// So many numbers of a line are kept, as many as a channel may have terminals. They stand in an array of the caller's, since nothing is allocated.
pub const KEPT: usize = 64;

// The first of a line's fields that is no number, and how many they are: a line may have more fields than there are places for numbers.
#[derive(Clone, Copy)]
struct Numbers {
    ill: Option<usize>,
    count: usize,
}

// Puts the number in its place, where there is one.
fn put_number(values: &mut [u32; KEPT], i: usize, x: u32)
    requires { length values.old ≡ 64 }
    ensures { values.new ≡ set values.old i x }
{
    // By `get_mut` it is as long, and the proof did not close.
    if i < KEPT {
        values[i] = x;
    }
}

// The numbers of a line, in the fields behind the first: the first of them into these places, which are zeros before.
// That they are zeros is asked in the contract: a type with that invariant would ask more of callers than an array.
fn read_numbers(bytes: &[u8], values: &mut [u32; KEPT]) -> Numbers
    requires { values.old ≡ replicate 64 0 }
    ensures { NumbersRead (drop 1 (fields bytes.now)) result values.new }
{
    let mut ill = None;
    let mut count = 0;
    // With `enumerate` the count behind the last field is still kept by hand, as `count = i + 1`.
    for field in bytes.split(|x| *x == TAB).skip(1) {
        match read_field(field) {
            Some(number) => put_number(values, count, number),
            None => ill = ill.or(Some(count + 2)),
        }
        count += 1;
    }
    Numbers { ill, count }
}

// A line as one of a word: whether it is ended and has the word; of the fields behind it the first that is no number, and how many they are.
// `worded` is a fact of its own: the promise of `read_line` tells the other two of any line, so that an `Option` of them would promise less.
#[derive(Clone, Copy)]
pub struct LineRead {
    pub worded: bool,
    pub ill: Option<usize>,
    pub count: usize,
}

// The line, its first numbers into these places, which are zeros before.
#[tactic(auto, using(crate::proofs::Places::run_length, crate::proofs::Cutting::run_below))]
pub fn read_line(line: Line, word: &[u8], values: &mut [u32; KEPT]) -> LineRead
    requires { values.old ≡ replicate 64 0 }
    ensures { IsLineRead (line_of line.entry) word.now result values.new }
{
    let end = run(line.bytes, TAB);
    // From the word's end on, so that a long word is not gone over twice.
    let numbers = read_numbers(&line.bytes[end..], values);
    LineRead {
        worded: line.ended && &line.bytes[..end] == word,
        ill: numbers.ill,
        count: numbers.count,
    }
}
