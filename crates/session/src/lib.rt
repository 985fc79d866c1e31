// Sessions, document 02's P6: strips that come and go. Each step hands the session back by value with its new state; each spread is answered as that of the text of
// the same stack.
#![tactic(auto)]

ghost use Rattle.std.specs.Prelude.{◌≡◌, ◌≤◌, ◌<◌};
ghost use Rattle.stack.specs.Stack.{free, strip};
ghost use Rattle.stack.specs.Value.{free_strip, channel_of, stack_of};
ghost use Rattle.text.specs.Outcome.{refusal_of};
ghost use Rattle.text.specs.Text.{fine};
ghost use Rattle.spread.specs.Best.{BestTotal, BestPlacement};
ghost use Rattle.session.specs.Session.{begin, off, nothing, room_refusal, top_length, length_refusal, taken, Made, session_refusal, SessionTotalSays, SessionPlacementSays};
ghost use Rattle.session.specs.Value.{held_of, Stepped, Added};
ghost use Rattle.session.specs.Parts.{TerminalsRead, session_step, topped};

use kinds::{nets_content, part_content};
use lines::KEPT;
use spread::{placement_of, single_placement, single_total, total_of};
use stack::{Columns, Placement, Stack, Strip, Terminals, Tracks};
use text::{Counts, Refusal, Refused, test_count};

// One to nine free strips, strip 0 at the bottom, as their lengths, and the channels between them, or none. Places past them are unused.
// Document 01 names an array over the channels, and nothing is allocated, so there are as many places as a stack may have, with the count of strips.
// That steps have made a session (`Made`) is asked in contracts: an invariant of the type would ask more of callers (`begin`, `add` and `take_off` take any session).
#[derive(Clone, Copy)]
pub struct Session {
    pub count: usize,
    pub lengths: [Columns; Stack::STRIPS],
    pub channels: [Terminals; Stack::MAX_CHANNELS],
}

// What a step is refused for, if it is, and the session after it: a refused step hands a session back too (document 02, P6).
#[derive(Clone, Copy)]
pub struct SessionStep {
    pub outcome: Result<(), Refused>,
    pub session: Session,
}

// Whether a strip may have this length: as in a PART line.
fn length_outcome(length: u32) -> Result<(), Refused>
    ensures { refusal_of result ≡ length_refusal length }
{
    part_content(length, 0).and(Ok(()))
}

// The terminals between two strips of these lengths, or why not: an odd list, then as in a NETS line.
fn read_terminals(
    values: &[u32; KEPT],
    count: u16,
    lower: Columns,
    upper: Columns,
) -> Result<Terminals, Refused>
    ensures { TerminalsRead lower.0 upper.0 values.now count result }
{
    test_count(Counts::InPairs, count, 0)?;
    nets_content(values, count as usize, 0, lower, upper)
}

// The free strip of a length.
fn free(length: Columns) -> Strip
    ensures { result ≡ free_strip length.0 }
{
    Strip {
        length,
        window: None,
    }
}

impl Session {
    pub fn empty() -> Session
        ensures { held_of result ≡ nothing }
    {
        Session {
            count: 0,
            lengths: [Columns(Strip::MIN_LENGTH); Stack::STRIPS],
            channels: [Terminals::none(); Stack::MAX_CHANNELS],
        }
    }

    // The session of one strip.
    fn single(length: Columns) -> Session
        ensures { held_of result ≡ taken nothing (begin length.0) }
    {
        Session {
            count: 1,
            lengths: [length; Stack::STRIPS],
            channels: [Terminals::none(); Stack::MAX_CHANNELS],
        }
    }

    // Begin with one strip, whatever is held; where it is refused, the session is empty.
    pub fn begin(self, length: u32) -> SessionStep
        ensures { Stepped (held_of self) (begin length) result }
    {
        match part_content(length, 0) {
            Ok(strip) => SessionStep {
                outcome: Ok(()),
                session: Session::single(strip.length),
            },
            Err(why) => SessionStep {
                outcome: Err(why),
                session: Session::empty(),
            },
        }
    }

    // Whether there is room for one strip more.
    fn room(&self) -> Result<(), Refused>
        ensures { refusal_of result ≡ room_refusal (held_of self.now) }
    {
        if self.count == 0 {
            return Err(Refused::new(Refusal::Empty, 0, 0));
        }
        if Stack::STRIPS <= self.count {
            return Err(Refused::new(Refusal::Crowd, 0, 0));
        }
        Ok(())
    }

    // The top strip's length where there is room for one more, else any.
    fn top(&self) -> Columns
        ensures { fine ≡ room_refusal (held_of self.now) → result.0 ≡ top_length (held_of self.now) }
    {
        self.lengths[self.count.saturating_sub(1).min(Stack::STRIPS - 1)]
    }

    // Puts a strip on top, with the terminals of the channel below it.
    fn put_top(&mut self, length: Columns, terminals: Terminals)
        requires { (1 ≤ self.old.count) × (self.old.count < 9) }
        ensures { held_of self.new ≡ topped (held_of self.old) (strip length.0 free) (channel_of terminals) }
    {
        let n = self.count;
        self.lengths[n] = length;
        self.channels[n - 1] = terminals;
        self.count = n + 1;
    }

    // Adds a strip on top, or says why not, and the session stays: no room, then its length, then the channel below it, the first refusal that applies.
    // All three are asked before any is told, so that their order stands in the operands alone. That `nets` is good is known behind `fits.and(wired)?`.
    fn try_add(&mut self, length: u32, terminals: &[u32; KEPT], count: u16) -> Result<(), Refused>
        ensures { Added (held_of self.old) length terminals.now count (session_step result self.new) }
    {
        let upper = Columns(length);
        let room = self.room();
        let sized = length_outcome(length);
        let nets = read_terminals(terminals, count, self.top(), upper);
        let wired = nets.and(Ok(()));
        let fits = room.and(sized);
        fits.and(wired)?;
        self.put_top(upper, nets?);
        Ok(())
    }

    // Add a strip on top with the channel below it: so many terminals, of which the first stand in these places. Where it is refused, the session stays.
    pub fn add(mut self, length: u32, terminals: &[u32; KEPT], count: u16) -> SessionStep
        ensures { Added (held_of self) length terminals.now count result }
    {
        let outcome = self.try_add(length, terminals, count);
        SessionStep {
            outcome,
            session: self,
        }
    }

    // Take the top strip off, with the channel below it. Where it is refused, the session stays.
    pub fn take_off(mut self) -> SessionStep
        ensures { Stepped (held_of self) off result }
    {
        if self.count <= 1 {
            return SessionStep {
                outcome: Err(Refused::new(Refusal::Empty, 0, 0)),
                session: self,
            };
        }
        self.count -= 1;
        SessionStep {
            outcome: Ok(()),
            session: self,
        }
    }

    // The strips and channels as a stack, every floor 0.
    fn stack(&self) -> Stack
        requires { 1 ≤ self.now.count }
        ensures { stack_of result ≡ held_of self.now }
    {
        Stack {
            count: self.count - 1,
            strips: self.lengths.map(free),
            channels: self.channels,
            floors: [Tracks(0); Stack::MAX_CHANNELS],
        }
    }

    // The least total in a spread of a session that steps have made, or 13, then 7.
    // `place_total` has the same three cases. A function that tells them apart would hand back a strip or a stack by an enum of its own, with a contract, and a
    // match would still stand in both.
    pub fn least_total(&self, spread: u32) -> Result<Tracks, Refused>
        requires { Made (held_of self.now) }
        ensures session_total_says { SessionTotalSays (held_of self.now) spread result }
        ensures best_total { BestTotal (session_refusal (held_of self.now) spread) (held_of self.now) spread result }
    {
        match self.count {
            0 => Err(Refused::new(Refusal::Empty, 0, 0)),
            1 => single_total(free(self.lengths[0]), spread),
            _ => total_of(&self.stack(), spread),
        }
    }

    // The placement in a spread for a stated total of a session that steps have made, or 13, then 7, then 10.
    pub fn place_total(&self, spread: u32, total: Tracks) -> Result<Placement, Refused>
        requires { Made (held_of self.now) }
        ensures session_placement_says { SessionPlacementSays (held_of self.now) spread total.0 result }
        ensures best_placement { BestPlacement (session_refusal (held_of self.now) spread) (held_of self.now) spread total.0 result }
    {
        match self.count {
            0 => Err(Refused::new(Refusal::Empty, 0, 0)),
            1 => single_placement(free(self.lengths[0]), spread, total),
            _ => placement_of(&self.stack(), spread, total),
        }
    }
}
