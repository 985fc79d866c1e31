// The lines of a session's steps: BEGIN and a PART line; ADD, a PART line and a NETS line; OFF.
#![tactic(auto)]

ghost use Rattle.std.specs.Prelude.{◌≡◌, ◌≤◌, cond, None, Some, OnSome, length, replicate};
ghost use Rattle.lines.specs.Lines.{line_of, numbers_of};
ghost use Rattle.lines.specs.Numbers.{in_places};
ghost use Rattle.steps.specs.Steps.{word_line, is_line, length_kind, list_kind, length_in};
ghost use Rattle.steps.specs.Parts.{IsStepLineRead};

use lines::{KEPT, Line};
use text::{Counts, read_kind};

// What a line of a step is behind another: the first line of a step, or the first two, with the length of the second; or the last, which makes the step whole,
// Add's with how many terminals it has.
#[derive(Clone, Copy, Debug, PartialEq, Eq)]
pub enum StepLine {
    BeginPart,
    AddPart,
    AddNets(u32),
    Begin(u32),
    Add { length: u32, count: u16 },
    Off,
}

// The first line of a step, if it is one.
#[tactic(auto, using(lines::proofs::Digits::same_pointwise), unfolding(crate::specs::Steps::word_line, crate::specs::Steps::begin_word, crate::specs::Steps::add_word, crate::specs::Steps::off_word, lines::specs::Lines::line))]
fn word_line(line: Line) -> Option<StepLine>
    ensures { result ≡ word_line (line_of line.entry) }
{
    if !line.ended {
        return None;
    }
    // A match on these byte strings was tried, and the proof did not close.
    if line.bytes == b"BEGIN".as_slice() {
        return Some(StepLine::BeginPart);
    }
    if line.bytes == b"ADD".as_slice() {
        return Some(StepLine::AddPart);
    }
    if line.bytes == b"OFF".as_slice() {
        return Some(StepLine::Off);
    }
    None
}

// The length of a PART line with a length alone, if it is one by its layout.
// That a line has at most 8,192 bytes, as a text has, and that the places are zeros is asked in contracts: types with these invariants would ask more of callers.
fn part_length(line: Line) -> Option<u32>
    requires { length line.bytes.now ≤ 8192 }
    ensures { result ≡ cond (is_line length_kind (line_of line.entry)) (Some (length_in (line_of line.entry))) None }
{
    let mut values = [0; KEPT];
    read_kind(line, 0, b"PART", Counts::Exactly(1), &mut values)
        .accepted()
        .ok()?;
    Some(values[0])
}

// How many numbers a NETS line has, if it is one by its layout, an odd count let pass.
fn list_count(line: Line, values: &mut [u32; KEPT]) -> Option<u16>
    requires { (length line.bytes.now ≤ 8192) × (values.old ≡ replicate 64 0) }
    ensures count { result ≡ cond (is_line list_kind (line_of line.entry)) (Some (length (numbers_of (line_of line.entry)))) None }
    ensures kept { OnSome result (values.new ≡ in_places 64 (numbers_of (line_of line.entry))) }
{
    let count = read_kind(line, 0, b"NETS", Counts::Any, values)
        .accepted()
        .ok()?;
    Some(count as u16)
}

// What a line is behind another, if it is a line of a step; the first terminals of ADD come into these places, which are zeros before.
#[tactic(auto, using(crate::proofs::Answers::word_kept), unfolding(crate::specs::Steps::step_line))]
pub fn read_step_line(
    before: Option<StepLine>,
    line: Line,
    values: &mut [u32; KEPT],
) -> Option<StepLine>
    requires { (length line.bytes.now ≤ 8192) × (values.old ≡ replicate 64 0) }
    ensures { IsStepLineRead before (line_of line.entry) result values.new }
{
    match before {
        Some(StepLine::BeginPart) => part_length(line).map(StepLine::Begin),
        Some(StepLine::AddPart) => part_length(line).map(StepLine::AddNets),
        Some(StepLine::AddNets(length)) => {
            list_count(line, values).map(|count| StepLine::Add { length, count })
        }
        None | Some(StepLine::Begin(_) | StepLine::Add { .. } | StepLine::Off) => word_line(line),
    }
}
