// A session's steps replayed from their text, line by line.
#![tactic(auto)]

ghost use Rattle.std.specs.Prelude.{◌≡◌, [], ◌≤◌, length};
ghost use Rattle.lines.specs.Lines.{line_of};
ghost use Rattle.text.specs.Outcome.{refusal_of};
ghost use Rattle.session.specs.Session.{Made};
ghost use Rattle.session.specs.Value.{held_of};
ghost use Rattle.replay.specs.Replay.{state, start, awaits, line_taken, replay, replayed};
ghost use Rattle.replay.specs.Value.{state_of};

use lines::{KEPT, Line, line_from};
use session::{Session, SessionStep};
use steps::{StepLine, read_step_line};
use text::{MAX_BYTES, Refusal, Refused};

// A session, what the last line is refused for, and what that line is, if it is a line of a step: the session stands whether or not the line is refused.
#[derive(Clone, Copy)]
pub struct Replay {
    pub session: Session,
    pub outcome: Result<(), Refused>,
    pub line: Option<StepLine>,
}

// Whether a further line of the step is awaited.
pub fn awaits(line: Option<StepLine>) -> bool
    ensures { result ≡ awaits line }
{
    matches!(
        line,
        Some(StepLine::BeginPart | StepLine::AddPart | StepLine::AddNets(_))
    )
}

impl Replay {
    // An empty session, before the first line.
    #[tactic(auto, unfolding(crate::specs::Value::state_of, crate::specs::Replay::start))]
    pub fn start() -> Replay
        ensures { state_of result ≡ start }
    {
        Replay {
            session: Session::empty(),
            outcome: Ok(()),
            line: None,
        }
    }

    // What a step makes is taken over: its session, and what it is refused for. The line stays.
    #[tactic(auto, unfolding(crate::specs::Value::state_of))]
    fn take_step(&mut self, step: SessionStep)
        ensures { state_of self.new ≡ state (held_of step.session) (refusal_of step.outcome) self.old.line }
    {
        self.session = step.session;
        self.outcome = step.outcome;
    }

    // Line n: a step that it makes whole is taken; where it is another line of a step, or no line of a step, the session stays.
    // That a line has at most 8,192 bytes, as a text has, is asked in contracts: a type with that invariant would ask more of callers.
    pub fn take_line(&mut self, n: u32, line: Line)
        requires { length line.bytes.now ≤ 8192 }
        ensures { state_of self.new ≡ line_taken n (state_of self.old) (line_of line.entry) }
    {
        let mut values = [0; KEPT];
        self.line = read_step_line(self.line, line, &mut values);
        let Some(read) = self.line else {
            self.outcome = Err(Refused::new(Refusal::Layout, n, 0));
            return;
        };
        match read {
            StepLine::BeginPart | StepLine::AddPart | StepLine::AddNets(_) => self.outcome = Ok(()),
            StepLine::Begin(length) => self.take_step(self.session.begin(length)),
            StepLine::Add { length, count } => {
                self.take_step(self.session.add(length, &values, count));
            }
            StepLine::Off => self.take_step(self.session.take_off()),
        }
    }

    // The end of the text, where line n would be.
    #[tactic(auto, unfolding(crate::specs::Replay::replay, crate::specs::Replay::state, crate::specs::Value::state_of))]
    fn finish(&mut self, n: u32)
        ensures { state_of self.new ≡ replay n (state_of self.old) [] }
    {
        if awaits(self.line) {
            self.outcome = Err(Refused::new(Refusal::Layout, n, 0));
            self.line = None;
        }
    }
}

// A text of steps replayed: the session, and what is refused of the text or of the last step.
pub fn replay_steps(text: &[u8]) -> Replay
    ensures is_replayed { state_of result ≡ replayed text.now }
    ensures made { Made (held_of result.session) }
{
    if MAX_BYTES < text.len() {
        return Replay {
            session: Session::empty(),
            outcome: Err(Refused::new(Refusal::Overlong, 0, 0)),
            line: None,
        };
    }
    let mut replay = Replay::start();
    let mut at = 0;
    let mut n: u32 = 1;
    // The place goes on by each line's length; n only numbers the line.
    while at < text.len() {
        let line = line_from(text, at);
        replay.take_line(n, line);
        if replay.line.is_none() {
            return replay;
        }
        at += line.bytes.len() + 1;
        n += 1;
    }
    replay.finish(n);
    replay
}
