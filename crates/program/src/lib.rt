// The program stacktable: it prints the table of a stack, the least total in one spread, the placement for a total, both together, the page of a channel, the
// verdict on a placement, or the rows behind the steps of a session. No contract can say what is read or written, so what is printed, what is refused and the status that
// goes with it come from crate commands, the words for a refusal from crate complaint; the functions here read, write and pass the status on.
#![tactic(auto)]

ghost use Rattle.std.specs.Prelude.{◌≡◌, ◌≤◌, ◌<◌, true, List, ℕ, length, replicate, set, IfOk};
ghost use Rattle.std.specs.Fn.{FnOnceReturnsAtMut};
ghost use Rattle.commands.specs.declared.Reply.{Reply};
ghost use Rattle.text.specs.Text.{or_else, text_refusal};
ghost use Rattle.text.specs.Outcome.{refusal_of};
ghost use Rattle.session.specs.Session.{Made, session_refusal};
ghost use Rattle.session.specs.Value.{held_of};
ghost use Rattle.spread.specs.Answers.{spread_refusal};
ghost use Rattle.nabetsu.specs.Pages.{page_refusal};
ghost use Rattle.commands.specs.Output.{status_number, status_after, status_of, trial_status};
ghost use Rattle.program.specs.Status.{PassedOn, PlacePassedOn, exit_status};
ghost use Rattle.program.specs.Input.{LineIn, IsNextLine};

use commands::{
    Command, NUMBERS, Reply, Status, put_page, put_place, put_spread, put_step, put_table,
    put_total, put_trial, read_command, read_number,
};
use complaint::{complaint, no_step};
use lines::{Line, line_from};
use nabetsu::TABLE_BYTES;
use replay::{Replay, awaits};
use std::env::{Env, FillError};
use std::fs::File;
use std::io::{Cursor, Error, Read, Write};
use std::rt::Stdin;
use std::{io, str};
use text::MAX_BYTES;

// One byte more than an accepted text has, so that a longer one is seen to be.
const TEXT_BYTES: usize = MAX_BYTES + 1;

// One number more than a trial has, so that a longer list is seen to be.
const TRIAL_NUMBERS: usize = NUMBERS + 1;

// The system's numbers for an argument that is missing, for a name that is too long, and for bytes that are no text.
const MISSING: i32 = 22;

const TOO_LONG: i32 = 36;

const NO_TEXT: i32 = 84;

// Says something on standard error; where that fails there is nowhere to say so.
fn say(rt: &HostRuntime, bytes: &[u8]) {
    let _ = rt.stderr().write_all(bytes);
}

// The bytes in front of the number that an error's text ends with.
fn before_number(text: &[u8]) -> &[u8] {
    let Ok(words) = str::from_utf8(text) else {
        return text;
    };
    words
        .split_once(" (os error ")
        .map_or(text, |(message, _)| message.as_bytes())
}

// The longest text of an error, with its number.
const ERROR_BYTES: usize = 128;

// Says the system's message for an error.
fn say_error(rt: &HostRuntime, error: Error) {
    let mut text = Cursor::new([0u8; ERROR_BYTES]);
    let _ = write!(text, "{error}");
    let end = text.position().min(ERROR_BYTES as u64) as usize;
    say(rt, before_number(&text.into_inner()[..end]));
}

// A failure that was said on standard error.
#[derive(Clone, Copy)]
struct Said;

// Says what failed, and why.
fn fail(rt: &HostRuntime, what: &[u8], error: Error) -> Said {
    say(rt, b"stacktable: ");
    say(rt, what);
    say(rt, b": ");
    say_error(rt, error);
    say(rt, b"\n");
    Said
}

// Prints what stands at the start of an output, and then says in words what is refused.
fn print_reply(rt: &HostRuntime, output: &[u8], reply: Reply) -> Result<Status, Said>
    requires { reply.length ≤ length output.now }
    ensures { PassedOn (status_number (status_after reply.outcome)) result }
{
    rt.stdout()
        .write_all(&output[..reply.length])
        .map_err(|error| fail(rt, b"standard output", error))?;
    say(rt, complaint(reply.outcome).as_slice());
    Ok(reply.status())
}

// Prints a whole text, with the status of an answer.
fn print(rt: &HostRuntime, bytes: &[u8]) -> Result<Status, Said>
    ensures { PassedOn 0 result }
{
    let reply = Reply {
        length: bytes.len(),
        outcome: Ok(()),
    };
    print_reply(rt, bytes, reply)
}

// How the program is used.
fn print_usage(to: &impl Print) -> io::Result<()> {
    to.write_all(
        b"usage: stacktable [-f FILE]
       stacktable [-f FILE] total N
       stacktable [-f FILE] place N TOTAL
       stacktable [-f FILE] spread N
       stacktable [-f FILE] page N CHANNEL
       stacktable [-f FILE] trial N T1..TK X0..XK
       stacktable [-f FILE] session N
       stacktable help | -h | --help
       stacktable --version
",
    )
}

// How the program is used, what it prints, and an example.
fn print_help(rt: &HostRuntime) -> Result<Status, Said>
    ensures { PassedOn 0 result }
{
    print_usage(&rt.stdout()).map_err(|error| fail(rt, b"standard output", error))?;
    print(
        rt,
        b"Reads a stack from FILE, or from standard input, and prints
  its table;
  total: the least total separation in spread N;
  place: the placement with exactly the total TOTAL in spread N, as a row of a table;
  spread: both together, the row of the least total in spread N;
  page: the paths of a channel, from 1, in the answer for spread N, at most 63;
  trial: legal or not legal, for separations T1..TK and positions X0..XK in spread N.
session reads the steps of a session instead, and prints behind each step the row of the least total in spread N, or a refusal: the line BEGIN and a PART line
for a first strip; ADD, a PART line and a NETS line for a strip on top with its channel; OFF to take the top strip off. A line that is no line of a step is said
on standard error and passed over, with what was begun of that step.
A line GAP, a channel and a floor behind the stack's NETS lines is a least separation of that channel.
A PART line may have two numbers behind the length, the least and the greatest position of that strip, up to 9999: it is held there. The first row of a table, and
the least spread that is answered, is the greatest, over all strips, of length plus least position.
In a channel with separation T paths run along tracks 1 to T - 1 only: the tracks of both strips' edges, 0 and T, stay clear.
Where the stack, the spread, the total or the channel is refused it prints the refusal's number, line and field, and says on standard error in words what is
wrong and where.
A number is 1 to 10 decimal digits, at most 4294967295.
It exits with 0 for an answer, 1 for a refusal, 2 where arguments are wrong, a line is no step, or reading or writing fails.
Example: two strips of 4 columns and two pairs, in a spread of 5
  printf 'STACK\\t1\\nPART\\t4\\nPART\\t4\\nNETS\\t0\\t2\\t2\\t4\\n' | stacktable spread 5
",
    )
}

// The version is kept here.
fn print_version(rt: &HostRuntime) -> Result<Status, Said>
    ensures { PassedOn 0 result }
{
    print(rt, b"stacktable 1.7\n")
}

// Says what is wrong with the arguments, and how the program is used.
fn print_wrong(rt: &HostRuntime, what: &[u8]) -> Status
    ensures { status_number result ≡ 2 }
{
    say(rt, b"stacktable: ");
    say(rt, what);
    say(rt, b"\n");
    let _ = print_usage(&rt.stderr());
    Status::Failed
}

// The bytes that are read, at the start of a space, and how many they are.
#[derive(Drop)]
struct Space {
    bytes: [u8; TEXT_BYTES],
    filled: usize,
    ghost within: { filled ≤ 8193 },
}

impl Space {
    fn new() -> Space
        ensures { result.filled ≡ 0 }
    {
        Space {
            bytes: [0; TEXT_BYTES],
            filled: 0,
        }
    }

    // The line that begins at a place, among the bytes that are read.
    fn line_at(&self, at: usize) -> NextLine
        requires { at ≤ self.now.filled }
        ensures { LineIn at self.now.filled result }
    {
        let line = line_from(&self.bytes[..self.filled], at);
        NextLine {
            at,
            end: at + line.bytes.len(),
            ended: line.ended,
        }
    }
}

// A line of the input: where it is among the bytes that are read, and whether it is ended, which fails at the end of the input and for a line that is too long. `ended` is a
// fact of its own: `line_at` gives `at` and `end` in both cases.
#[derive(Clone, Copy)]
struct NextLine {
    at: usize,
    end: usize,
    ended: bool,
}

// The longest argument's bytes; a path has fewer.
const ARGUMENT_BYTES: usize = 4096;

// Puts argument i at the start of the space; how many bytes it has, none where it is missing or too long: it is then no word and no number, as an empty one is.
fn argument(rt: &HostRuntime, i: usize, space: &mut [u8]) -> usize
    ensures { result ≤ length space.new }
{
    rt.arg(i, space).unwrap_or(0)
}

// How many arguments there are, the program's name among them.
fn argument_count(rt: &HostRuntime) -> usize {
    (0..usize::MAX)
        .find(|i| matches!(rt.arg(*i, &mut []), Err(FillError::NotPresent)))
        .unwrap_or(usize::MAX)
}

// Opens a file by its name. The library takes a name as text, so one that is none opens no file.
fn open_named(rt: &HostRuntime, name: &[u8]) -> io::Result<File> {
    let path = str::from_utf8(name).map_err(|_| Error::from_raw_os_error(NO_TEXT))?;
    File::open(rt, path)
}

// What an argument that is not there, or is too long, is refused with.
fn argument_error(why: FillError) -> Error {
    match why {
        FillError::NotPresent => Error::from_raw_os_error(MISSING),
        FillError::TooLong => Error::from_raw_os_error(TOO_LONG),
    }
}

// Opens the file that the second argument names, and puts its name at the start of the space; the file, and how many bytes its name has.
fn open_file(rt: &HostRuntime, path: &mut [u8]) -> Result<(File, usize), Said>
    ensures { IfOk result (λ r. r.1 ≤ length path.new) }
{
    let n = rt
        .arg(2, path)
        .map_err(|why| fail(rt, b"FILE", argument_error(why)))?;
    let name = &path[..n];
    let file = open_named(rt, name).map_err(|error| fail(rt, name, error))?;
    Ok((file, n))
}

// The place of an argument behind -f and a file.
const BEHIND_FILE: usize = 3;

// Where the command stands among the arguments: behind -f and a file, or first.
fn command_place(rt: &HostRuntime) -> usize
    ensures { result ≤ 3 }
{
    let mut word = [0u8; ARGUMENT_BYTES];
    let n = argument(rt, 1, &mut word);
    if &word[..n] == b"-f".as_slice() {
        BEHIND_FILE
    } else {
        1
    }
}

// The number that is argument i.
fn number_argument(rt: &HostRuntime, i: usize) -> Result<u32, Said> {
    let mut word = [0u8; ARGUMENT_BYTES];
    let n = argument(rt, i, &mut word);
    if let Some(number) = read_number(&word[..n]) {
        return Ok(number);
    }
    say(
        rt,
        b"stacktable: not a number of 1 to 10 digits, at most 4294967295: ",
    );
    say(rt, &word[..n]);
    say(rt, b"\n");
    Err(Said)
}

// Puts a number in its place, where there is one.
fn store(values: &mut [u32; TRIAL_NUMBERS], i: usize, x: u32)
    ensures { values.new ≡ set values.old i x }
{
    // As in lines, `put_number`: by `get_mut` the proof did not close.
    if i < TRIAL_NUMBERS {
        values[i] = x;
    }
}

// The runtime, the place of the command among the arguments, and how many arguments there are.
#[derive(Clone, Copy)]
struct Arguments<'a> {
    rt: &'a HostRuntime,
    place: usize,
    end: usize,
    ghost small: { place ≤ 3 },
}

impl<'a> Arguments<'a> {
    fn new(rt: &'a HostRuntime) -> Arguments<'a> {
        Arguments {
            rt,
            place: command_place(rt),
            end: argument_count(rt),
        }
    }

    // The first number behind the command, or the second.
    fn number(self, i: usize) -> Result<u32, Said>
        requires { i ≤ 2 }
    {
        number_argument(self.rt, self.place + i)
    }

    // The numbers behind the command over the first of the values, and how many there are, at most one more than a trial has. Those past the space are looked at
    // too, since each is refused where it is no number.
    fn numbers(self, values: &mut [u32; TRIAL_NUMBERS]) -> Result<usize, Said>
        ensures { IfOk result (λ n. n ≤ 19) }
    {
        let first = self.place + 1;
        // i is the number by which the system knows the argument.
        for i in first..self.end {
            store(values, i - first, number_argument(self.rt, i)?);
        }
        Ok(self.end.saturating_sub(first).min(TRIAL_NUMBERS))
    }

    // Opens the file behind -f, whose name is put at the start of the space, or else standard input: the place is `BEHIND_FILE` exactly where -f and a file stand in front.
    fn open<'b>(self, path: &'b mut [u8; ARGUMENT_BYTES]) -> Result<Source<'b>, Said>
    where
        'a: 'b,
    {
        let rt = self.rt;
        if self.place != BEHIND_FILE {
            return Ok(Source {
                rt,
                input: Input::Standard(rt.stdin()),
                name: b"standard input",
            });
        }
        let (file, n) = open_file(rt, path)?;
        Ok(Source {
            rt,
            input: Input::File(file),
            name: &path[..n],
        })
    }

    // Reads all of the input, and prints what is asked of it.
    fn with_text<F: FnOnce(&[u8]) -> Result<Status, Said>>(self, print: F) -> Result<Status, Said>
        requires { F.IsAlwaysCallable print }
    {
        let mut path = [0u8; ARGUMENT_BYTES];
        let mut space = Space::new();
        let mut source = self.open(&mut path)?;
        source.read_whole(&mut space)?;
        print(&space.bytes[..space.filled])
    }
}

// What is read: the file behind -f, or standard input.
#[derive(Drop)]
enum Input {
    File(File),
    Standard(Stdin),
}

impl Read for Input {
    fn read(&mut self, bytes: &mut [u8]) -> io::Result<usize> {
        match self {
            Input::File(file) => file.read(bytes),
            Input::Standard(input) => input.read(bytes),
        }
    }
}

// An input, and its name, which is said where it cannot be read.
#[derive(Drop)]
struct Source<'a> {
    rt: &'a HostRuntime,
    input: Input,
    name: &'a [u8],
}

impl Source<'_> {
    // Reads on behind the bytes that are read, once; whether there were more.
    fn read_once(&mut self, space: &mut Space) -> Result<bool, Said>
        ensures { IfOk result (λ more. more ≡ true → space.old.filled < space.new.filled) }
    {
        let more = self
            .input
            .read(&mut space.bytes[space.filled..])
            .map_err(|error| fail(self.rt, self.name, error))?;
        space.filled += more;
        Ok(0 < more)
    }

    // Reads to the end of the input, or until the space is full.
    fn read_whole(&mut self, space: &mut Space) -> Result<(), Said> {
        // The count goes on by what each read gives, so that there is nothing to iterate over.
        while space.filled < TEXT_BYTES {
            if !self.read_once(space)? {
                break;
            }
        }
        Ok(())
    }

    // Reads on up to a line feed, to the end of the input, or until the space is full.
    fn read_line(&mut self, space: &mut Space) -> Result<(), Said> {
        // By what each read gives, as in `read_whole`.
        while space.filled < TEXT_BYTES {
            let from = space.filled;
            let more = self.read_once(space)?;
            if !more || space.line_at(from).ended {
                break;
            }
        }
        Ok(())
    }

    // The line that begins at a place; one that is not whole is moved to the front, and more of it is read.
    fn next_line(&mut self, space: &mut Space, at: usize) -> Result<NextLine, Said>
        requires { at ≤ space.old.filled }
        ensures { IfOk result (λ line. IsNextLine space.new.filled line) }
    {
        let found = space.line_at(at);
        if found.ended {
            return Ok(found);
        }
        space.bytes.copy_within(at..space.filled, 0);
        space.filled -= at;
        self.read_line(space)?;
        Ok(space.line_at(0))
    }
}

// Prints what a command puts, and says in words what is refused. Each function below hands on its command's function, and promises that command's status.
fn print_put<F: FnOnce(&mut [u8; TABLE_BYTES]) -> Reply>(
    rt: &HostRuntime,
    put: F,
) -> Result<Status, Said>
    requires callable { F.IsAlwaysCallable put }
    requires within { (reply : Reply) (output : List ℕ) → FnOnceReturnsAtMut F.FnOnce put (replicate 24388 0) reply output → reply.length ≤ length output }
    ensures { (reply : Reply) × (output : List ℕ) × FnOnceReturnsAtMut F.FnOnce put (replicate 24388 0) reply output × PassedOn (status_number (status_after reply.outcome)) result }
{
    let mut output = [0; TABLE_BYTES];
    let reply = put(&mut output);
    print_reply(rt, &output, reply)
}

// The table of the stack in a text.
fn print_table(rt: &HostRuntime, text: &[u8]) -> Result<Status, Said>
    ensures { PassedOn (status_of (text_refusal text.now)) result }
{
    print_put(rt, |output| put_table(text, output))
}

// The least total in one spread.
fn print_total(rt: &HostRuntime, text: &[u8], spread: u32) -> Result<Status, Said>
    ensures { PassedOn (status_of (spread_refusal text.now spread)) result }
{
    print_put(rt, |output| put_total(text, spread, output))
}

// The placement for a total in one spread.
fn print_place(rt: &HostRuntime, text: &[u8], spread: u32, total: u32) -> Result<Status, Said>
    ensures { PlacePassedOn text.now spread total result }
{
    print_put(rt, |output| put_place(text, spread, total, output))
}

// The answer for one spread.
fn print_spread(rt: &HostRuntime, text: &[u8], spread: u32) -> Result<Status, Said>
    ensures { PassedOn (status_of (spread_refusal text.now spread)) result }
{
    print_put(rt, |output| put_spread(text, spread, output))
}

// The page of a channel in the answer for one spread.
fn print_page(rt: &HostRuntime, text: &[u8], spread: u32, channel: u32) -> Result<Status, Said>
    ensures { PassedOn (status_of (page_refusal text.now spread channel)) result }
{
    print_put(rt, |output| put_page(text, spread, channel, output))
}

// The verdict on a trial of these numbers.
fn print_trial(rt: &HostRuntime, text: &[u8], numbers: &[u32]) -> Result<Status, Said>
    ensures { PassedOn (trial_status text.now (length numbers.now)) result }
{
    let mut output = [0; TABLE_BYTES];
    match put_trial(text, numbers, &mut output) {
        Some(reply) => print_reply(rt, &output, reply),
        None => {
            let what = b"trial: a stack of K channels takes 2K + 2 numbers";
            Ok(print_wrong(rt, what))
        }
    }
}

// Reads the spread and the text, and prints what is asked of them.
fn run_spread<F: FnOnce(&HostRuntime, &[u8], u32) -> Result<Status, Said>>(
    arguments: Arguments,
    print: F,
) -> Result<Status, Said>
    requires { F.IsAlwaysCallable print }
{
    let spread = arguments.number(1)?;
    arguments.with_text(|text| print(arguments.rt, text, spread))
}

// Reads the spread, a second number and the text, and prints what is asked of them.
fn run_second<F: FnOnce(&HostRuntime, &[u8], u32, u32) -> Result<Status, Said>>(
    arguments: Arguments,
    print: F,
) -> Result<Status, Said>
    requires { F.IsAlwaysCallable print }
{
    let spread = arguments.number(1)?;
    let second = arguments.number(2)?;
    arguments.with_text(|text| print(arguments.rt, text, spread, second))
}

// Says that a line of the input is no step.
fn say_no_step(rt: &HostRuntime, n: u32) -> Status
    ensures { status_number result ≡ 2 }
{
    say(rt, no_step(n).as_slice());
    Status::Failed
}

// What a step has come to: the row of the session in one spread, or a refusal.
fn print_step(rt: &HostRuntime, replay: &Replay, spread: u32) -> Result<Status, Said>
    requires { Made (held_of replay.now.session) }
    ensures { PassedOn (status_of (or_else (refusal_of replay.now.outcome) (session_refusal (held_of replay.now.session) spread))) result }
{
    print_put(rt, |output| {
        put_step(replay.outcome, &replay.session, spread, output)
    })
}

// Line n: prints the row behind a step, or says that the line is none of a step; answers the line's status, and fails where the output cannot be written. What is held
// then steps have made in either case. Lines have at most 8,192 bytes since the space that they are read into has one byte more, for the line feed.
#[tactic(auto, using(crate::proofs::Lines::line_run_made))]
fn run_line(
    rt: &HostRuntime,
    replay: &mut Replay,
    n: u32,
    bytes: &[u8],
    spread: u32,
) -> Result<Status, Said>
    requires { (length bytes.now ≤ 8192) × Made (held_of replay.old.session) }
    ensures { Made (held_of replay.new.session) }
{
    replay.take_line(n, Line { bytes, ended: true });
    if replay.line.is_none() {
        return Ok(say_no_step(rt, n));
    }
    if awaits(replay.line) {
        return Ok(Status::Answered);
    }
    print_step(rt, replay, spread)
}

// The end of the input at line n, of which so many bytes are there: what is begun of a line or of a step is no step.
fn run_end(rt: &HostRuntime, replay: &Replay, n: u32, bytes: usize, status: Status) -> Status {
    if awaits(replay.line) || 0 < bytes {
        return say_no_step(rt, n);
    }
    status
}

// Reads steps line by line to the end of the input, and prints what each has come to in one spread. Lines are numbered up to the greatest u32.
fn run_steps(mut source: Source, spread: u32) -> Result<Status, Said> {
    let rt = source.rt;
    let mut space = Space::new();
    let mut replay = Replay::start();
    let mut at = 0;
    let mut status = Status::Answered;
    // n is the number of the line, and each line carries the session on.
    for n in 1..u32::MAX {
        let line = source.next_line(&mut space, at)?;
        if !line.ended {
            return Ok(run_end(rt, &replay, n, space.filled, status));
        }
        let bytes = &space.bytes[line.at..line.end];
        status = status.max(run_line(rt, &mut replay, n, bytes, spread)?);
        at = line.end + 1;
    }
    Ok(say_no_step(rt, u32::MAX))
}

// Reads the spread and the steps.
fn run_session(arguments: Arguments) -> Result<Status, Said> {
    let spread = arguments.number(1)?;
    let mut path = [0u8; ARGUMENT_BYTES];
    run_steps(arguments.open(&mut path)?, spread)
}

// Reads the numbers and the text, and prints the verdict.
fn run_trial(arguments: Arguments) -> Result<Status, Said> {
    let mut numbers = [0u32; TRIAL_NUMBERS];
    let count = arguments.numbers(&mut numbers)?;
    arguments.with_text(|text| print_trial(arguments.rt, text, &numbers[..count]))
}

// Runs a command.
fn run_command(command: Command, arguments: Arguments) -> Result<Status, Said> {
    let rt = arguments.rt;
    match command {
        Command::Table => arguments.with_text(|text| print_table(rt, text)),
        Command::Total => run_spread(arguments, print_total),
        Command::Place => run_second(arguments, print_place),
        Command::Spread => run_spread(arguments, print_spread),
        Command::Page => run_second(arguments, print_page),
        Command::Trial => run_trial(arguments),
        Command::Session => run_session(arguments),
        Command::Help => print_help(rt),
        Command::Version => print_version(rt),
    }
}

// What has come of a command: its status, or that of a failure that was said.
fn concluded(run: Result<Status, Said>) -> Status
    ensures { status_number result ≡ exit_status run }
{
    run.unwrap_or(Status::Failed)
}

// Runs the program on its arguments, and answers what has come of it, whose number is the exit status: 0 where an answer was printed, 1 where a refusal was, 2 where
// arguments are wrong or reading or writing fails. That the number is at most 2 holds of every `Status`: the clause is kept as the promise to those who see only a number.
pub fn run(rt: &HostRuntime) -> Status
    ensures { status_number result ≤ 2 }
{
    let arguments = Arguments::new(rt);
    let Some(words) = arguments.end.checked_sub(arguments.place) else {
        return print_wrong(rt, b"wrong arguments");
    };
    let mut word = [0u8; ARGUMENT_BYTES];
    let n = argument(rt, arguments.place, &mut word);
    match read_command(&word[..n], words) {
        Some(command) => concluded(run_command(command, arguments)),
        None => print_wrong(rt, b"wrong arguments"),
    }
}
