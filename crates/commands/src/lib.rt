// The program's commands, on slices: what its arguments stand for, and for each command what is printed of a text, what is refused, and the exit status that
// goes with it.
#![tactic(auto)]

ghost use Rattle.std.specs.Prelude.{◌≡◌, length};
ghost use Rattle.text.specs.Outcome.{refusal_of};
ghost use Rattle.session.specs.Session.{Made};
ghost use Rattle.session.specs.Value.{held_of};
ghost use Rattle.writing.specs.Output.{LinePut};
ghost use Rattle.commands.specs.Words.{number_in, command_alone, command_with_number, command_with_two, command_in};
ghost use Rattle.commands.specs.Output.{
  status_number,
  status_after,
  TablePrinted,
  TotalPrinted,
  PlacementPrinted,
  SpreadPrinted,
  StepPrinted,
  PagePrinted,
  TrialPrinted,
  verdict_text,
};
ghost use Rattle.commands.specs.Parts.{Concluded, TotalPut, PlacementPut, SpreadPut, StepPut, TrialPut};

use lines::read_digits;
use nabetsu::{
    TABLE_BYTES, least_total, padded, place_total, try_placement, write_page, write_table,
};
use reading::read_stack;
use session::Session;
use stack::{Columns, Stack, Tracks};
use text::Refused;
use writing::{put_line, put_refusal, put_row, put_total as put_total_line};

// At most so many numbers has a trial: its spread, separations and positions.
pub const NUMBERS: usize = 2 * Stack::MAX_CHANNELS + 2;

// What has come of the program, the worse the greater: an answer is printed, or a refusal, or arguments are wrong or reading or writing fails.
#[derive(Clone, Copy, Debug, PartialEq, Eq, PartialOrd, Ord)]
pub enum Status {
    Answered,
    Refused,
    Failed,
}

impl Status {
    // The exit status.
    pub fn number(self) -> u32
        ensures { result ≡ status_number self }
    {
        self as u32
    }
}

const MAX_DIGITS: usize = 10;

// The number that a word is: 1 to 10 decimal digits, at most 4294967295. Not by `parse` alone, which takes a sign, and more digits with zeros in front.
#[tactic(auto, unfolding(crate::specs::Words::is_number, crate::specs::Words::number_in, lines::specs::Numbers::digits_read))]
pub fn read_number(word: &[u8]) -> Option<u32>
    ensures { result ≡ number_in word.now }
{
    if word.is_empty() || MAX_DIGITS < word.len() {
        return None;
    }
    let value = read_digits(word)?;
    u32::try_from(value).ok()
}

#[derive(Clone, Copy, Debug, PartialEq, Eq)]
pub enum Command {
    Table,
    Total,
    Place,
    Spread,
    Page,
    Trial,
    Session,
    Help,
    Version,
}

// The command of one word.
#[tactic(auto, unfolding(crate::specs::Words::is_help, crate::specs::Words::command_alone))]
fn read_alone(word: &[u8]) -> Option<Command>
    ensures { result ≡ command_alone word.now }
{
    // A match on byte strings was tried here and below: its proof did not close.
    if word == b"help".as_slice() || word == b"-h".as_slice() || word == b"--help".as_slice() {
        return Some(Command::Help);
    }
    if word == b"--version".as_slice() {
        return Some(Command::Version);
    }
    None
}

// The command of a word and a number.
#[tactic(auto, unfolding(crate::specs::Words::command_with_number))]
fn read_with_number(word: &[u8]) -> Option<Command>
    ensures { result ≡ command_with_number word.now }
{
    if word == b"session".as_slice() {
        return Some(Command::Session);
    }
    if word == b"total".as_slice() {
        return Some(Command::Total);
    }
    if word == b"spread".as_slice() {
        return Some(Command::Spread);
    }
    None
}

// The command of a word and two numbers.
#[tactic(auto, unfolding(crate::specs::Words::command_with_two))]
fn read_with_two(word: &[u8]) -> Option<Command>
    ensures { result ≡ command_with_two word.now }
{
    if word == b"place".as_slice() {
        return Some(Command::Place);
    }
    if word == b"page".as_slice() {
        return Some(Command::Page);
    }
    None
}

// The command of so many words, of which this is the first.
#[tactic(auto, unfolding(crate::specs::Words::command_in))]
pub fn read_command(word: &[u8], words: usize) -> Option<Command>
    ensures { result ≡ command_in word.now words }
{
    match words {
        0 => Some(Command::Table),
        1 => read_alone(word),
        _ if word == b"trial".as_slice() => Some(Command::Trial),
        2 => read_with_number(word),
        3 => read_with_two(word),
        _ => None,
    }
}

// What stands at the start of an output: how many bytes, and what is refused where they are a refusal's line. Both, since a refusal is printed too and so has a length.
#[derive(Clone, Copy)]
pub struct Reply {
    pub length: usize,
    pub outcome: Result<(), Refused>,
}

impl Reply {
    // The status that goes with it.
    pub fn status(self) -> Status
        ensures { result ≡ status_after self.outcome }
    {
        match self.outcome {
            Ok(()) => Status::Answered,
            Err(_) => Status::Refused,
        }
    }

    // So many bytes that are put already, or the line of a refusal. Each public function below ends by it and not by `?`, since a refusal is printed too, as a line of its own over
    // the same output.
    fn of(put: Result<usize, Refused>, output: &mut [u8; TABLE_BYTES]) -> Reply
        ensures { Concluded put output.old output.new result }
    {
        match put {
            Ok(length) => Reply {
                length,
                outcome: Ok(()),
            },
            Err(why) => Reply {
                length: put_refusal(output, why.why.number(), why.line, why.field),
                outcome: Err(why),
            },
        }
    }
}

// All that is printed of a text: its table, or the refusal's line.
pub fn put_table(text: &[u8], output: &mut [u8; TABLE_BYTES]) -> Reply
    ensures { TablePrinted text.now output.new result }
{
    let put = write_table(text, output);
    Reply::of(put, output)
}

// The digits of the least total in one spread, or its refusal.
fn put_digits(text: &[u8], spread: u32, output: &mut [u8; TABLE_BYTES]) -> Result<usize, Refused>
    ensures { TotalPut text.now spread output.old output.new result }
{
    let total = least_total(text, spread)?;
    Ok(put_total_line(output, total.0))
}

// All that is printed of the least total in one spread: its digits, or the refusal's line.
pub fn put_total(text: &[u8], spread: u32, output: &mut [u8; TABLE_BYTES]) -> Reply
    ensures { TotalPrinted text.now spread output.new result }
{
    let put = put_digits(text, spread, output);
    Reply::of(put, output)
}

// The row of a placement for a total, or its refusal.
fn put_placed(
    text: &[u8],
    spread: u32,
    total: Tracks,
    output: &mut [u8; TABLE_BYTES],
) -> Result<usize, Refused>
    ensures { PlacementPut text.now spread total.0 output.old output.new result }
{
    let placement = place_total(text, spread, total)?;
    let stack = read_stack(text)?;
    Ok(put_row(output, stack.count, spread, placement))
}

// All that is printed of a placement for a total: its row, or the refusal's line.
pub fn put_place(text: &[u8], spread: u32, total: u32, output: &mut [u8; TABLE_BYTES]) -> Reply
    ensures { PlacementPrinted text.now spread total output.new result }
{
    let put = put_placed(text, spread, Tracks(total), output);
    Reply::of(put, output)
}

// The row of the placement for the least total in one spread, or its refusal.
fn put_least(text: &[u8], spread: u32, output: &mut [u8; TABLE_BYTES]) -> Result<usize, Refused>
    ensures { SpreadPut text.now spread output.old output.new result }
{
    let total = least_total(text, spread)?;
    put_placed(text, spread, total, output)
}

// All that is printed for one spread: the row of the placement for its least total, or the refusal's line.
pub fn put_spread(text: &[u8], spread: u32, output: &mut [u8; TABLE_BYTES]) -> Reply
    ensures { SpreadPrinted text.now spread output.new result }
{
    let put = put_least(text, spread, output);
    Reply::of(put, output)
}

// The row of the placement for a session's least total in one spread, or the refusal of the step before it or of the spread.
fn put_stepped(
    outcome: Result<(), Refused>,
    session: &Session,
    spread: u32,
    output: &mut [u8; TABLE_BYTES],
) -> Result<usize, Refused>
    requires { Made (held_of session.now) }
    ensures { StepPut (refusal_of outcome) (held_of session.now) spread output.old output.new result }
{
    outcome?;
    let total = session.least_total(spread)?;
    let placement = session.place_total(spread, total)?;
    Ok(put_row(output, session.count - 1, spread, placement))
}

// All that is printed of a step of a session: the row of the placement for its least total in one spread, or the step's refusal or the spread's.
pub fn put_step(
    outcome: Result<(), Refused>,
    session: &Session,
    spread: u32,
    output: &mut [u8; TABLE_BYTES],
) -> Reply
    requires { Made (held_of session.now) }
    ensures { StepPrinted (refusal_of outcome) (held_of session.now) spread output.new result }
{
    let put = put_stepped(outcome, session, spread, output);
    Reply::of(put, output)
}

// All that is printed of a channel in the answer for one spread: its page, or the refusal's line.
pub fn put_page(text: &[u8], spread: u32, channel: u32, output: &mut [u8; TABLE_BYTES]) -> Reply
    ensures { PagePrinted text.now spread channel output.new result }
{
    let put = write_page(text, spread, channel, output);
    Reply::of(put, output)
}

// The line of a verdict.
fn put_verdict(legal: bool, output: &mut [u8]) -> usize
    ensures { LinePut (verdict_text legal) output.old output.new result }
{
    if legal {
        return put_line(output, b"legal\n");
    }
    put_line(output, b"not legal\n")
}

// The line of the verdict on a trial with these numbers, or the text's refusal; none where so many do not fit the stack.
fn put_tried(
    text: &[u8],
    numbers: &[u32],
    output: &mut [u8; TABLE_BYTES],
) -> Result<Option<usize>, Refused>
    ensures { TrialPut text.now (length numbers.now) numbers.now output.old output.new result }
{
    let stack = read_stack(text)?;
    let k = stack.count;
    if numbers.len() != 2 * k + 2 {
        return Ok(None);
    }
    let (separations, positions) = numbers[1..].split_at(k);
    let legal = try_placement(
        text,
        numbers[0],
        padded(separations).map(Tracks),
        padded(positions).map(Columns),
    )?;
    Ok(Some(put_verdict(legal, output)))
}

// All that is printed of a trial with these numbers: the verdict, or the refusal's line; none where so many do not fit the stack.
pub fn put_trial(text: &[u8], numbers: &[u32], output: &mut [u8; TABLE_BYTES]) -> Option<Reply>
    ensures { TrialPrinted text.now (length numbers.now) numbers.now output.new result }
{
    let put = put_tried(text, numbers, output).transpose()?;
    Some(Reply::of(put, output))
}
