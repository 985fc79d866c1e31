// Reading a stack's text line by line: the first refusal that applies, or the stack.
#![tactic(auto)]

ghost use Rattle.std.specs.Prelude.{◌≡◌, ◌+◌, ◌*◌, ◌≤◌, ◌<◌, length, unwrap_or};
ghost use Rattle.reading.specs.Driver.{
  HeadStands,
  HeadTaken,
  Parting,
  PartTaken,
  PartsStand,
  PartsTaken,
  Wiring,
  NetsTaken,
  NetsStand,
  AllNetsTaken,
  Gapping,
  IsGapTaken,
  GapsTaken,
  StackRead,
};

use kinds::{read_gap, read_head, read_nets, read_part};
use lines::line_from;
use stack::Stack;
use text::{MAX_BYTES, Refusal, Refused};

// How far a text has been read: where the next line begins, and the stack so far.
#[derive(Clone, Copy)]
struct Progress<'a> {
    text: &'a [u8],
    at: usize,
    stack: Stack,
}

// The number of the line behind the last NETS line of a stack with k channels.
fn line_behind(k: usize) -> u32
    requires { k ≤ 8 }
    ensures { result ≡ 2 * k + 3 }
{
    2 * k as u32 + 3
}

impl<'a> Progress<'a> {
    // The first line. That the text has at most 8,192 bytes is asked in the contract: `read_stack`, which takes any text, tests it.
    fn take_head(text: &'a [u8]) -> Result<Progress<'a>, Refused>
        requires { length text.now ≤ 8192 }
        ensures { HeadTaken text.now result }
    {
        let line = line_from(text, 0);
        let stack = read_head(line)?;
        Ok(Progress {
            text,
            at: line.bytes.len() + 1,
            stack,
        })
    }

    // The PART line of strip i.
    fn take_part(&mut self, i: usize) -> Result<(), Refused>
        requires { Parting self.old.text.now i self.old × (i ≤ self.old.stack.count) }
        ensures { PartTaken self.old.text.now i result self.new }
    {
        let line = line_from(self.text, self.at);
        let strip = read_part(line, i as u32 + 2)?;
        self.at += line.bytes.len() + 1;
        self.stack.set_strip(i, strip);
        Ok(())
    }

    // All PART lines.
    fn take_parts(&mut self) -> Result<(), Refused>
        requires { HeadStands self.old.text.now self.old }
        ensures { PartsTaken self.old.text.now result self.new }
    {
        let strips = self.stack.count + 1;
        // By `try_for_each` the proof did not close: behind it nothing is known of the progress that its closure changes.
        // One function for this loop and that of `take_all_nets` would take the step, and with it what each call asks and gives (`Parting`, `Wiring`), to share these
        // three lines.
        for i in 0..strips {
            self.take_part(i)?;
        }
        Ok(())
    }

    // The NETS line of the channel between strips c and c + 1.
    fn take_nets(&mut self, c: usize) -> Result<(), Refused>
        requires { Wiring self.old.text.now c self.old × (c < self.old.stack.count) }
        ensures { NetsTaken self.old.text.now c result self.new }
    {
        let line = line_from(self.text, self.at);
        let n = (self.stack.count + c) as u32 + 3;
        let lower = self.stack.strips[c].length;
        let upper = self.stack.strips[c + 1].length;
        let terminals = read_nets(line, n, lower, upper)?;
        self.at += line.bytes.len() + 1;
        self.stack.set_terminals(c, terminals);
        Ok(())
    }

    // All NETS lines.
    fn take_all_nets(&mut self) -> Result<(), Refused>
        requires { PartsStand self.old.text.now self.old }
        ensures { AllNetsTaken self.old.text.now result self.new }
    {
        let channels = self.stack.count;
        // A `for`, as in `take_parts`.
        for c in 0..channels {
            self.take_nets(c)?;
        }
        Ok(())
    }

    // GAP line g, from 0, behind a GAP of a channel, if there is one: its own channel.
    fn take_gap(&mut self, g: u32, before: Option<u32>) -> Result<u32, Refused>
        requires { Gapping self.old.text.now g (unwrap_or before 0) self.old }
        ensures { IsGapTaken self.old.text.now g result self.new }
    {
        let line = line_from(self.text, self.at);
        let k = self.stack.count;
        let gap = read_gap(line, line_behind(k) + g, k, before)?;
        self.at += line.bytes.len() + 1;
        self.stack.set_floor(gap.channel as usize - 1, gap.floor);
        Ok(gap.channel)
    }

    // The lines up to the text's end: each is a GAP.
    fn take_gaps(&mut self) -> Result<(), Refused>
        requires { NetsStand self.old.text.now self.old }
        ensures { GapsTaken self.old.text.now result self.new }
    {
        let mut g: u32 = 0;
        let mut before = None;
        // The place goes on by each line's length; g only numbers the line.
        while self.at < self.text.len() {
            before = Some(self.take_gap(g, before)?);
            g += 1;
        }
        Ok(())
    }
}

// Documents 01, "Lines and tabs" and "Sent back at the counter", and 02, P2, P5 and P7: the stack in a text, or the first refusal of 1 to 6, 11, 12 and 14 that
// applies.
pub fn read_stack(text: &[u8]) -> Result<Stack, Refused>
    ensures { StackRead text.now result }
{
    if MAX_BYTES < text.len() {
        return Err(Refused::new(Refusal::Overlong, 0, 0));
    }
    let mut progress = Progress::take_head(text)?;
    progress.take_parts()?;
    progress.take_all_nets()?;
    progress.take_gaps()?;
    Ok(progress.stack)
}
