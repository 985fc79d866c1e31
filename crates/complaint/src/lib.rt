// A refusal in words, as the program says it on standard error.
#![tactic(auto)]

ghost use Rattle.std.specs.Prelude.{◌≡◌, ◌++◌, ◌+◌, ◌≤◌, length};
ghost use Rattle.text.specs.Outcome.{refusal_of};
ghost use Rattle.writing.specs.TableText.{digits};
ghost use Rattle.complaint.specs.Complaint.{place, complaint, no_step};

use meaning::meaning;
use text::Refused;
use writing::Line;

const LINE_FEED: u8 = b'\n';

// The longest line's bytes: 12 for the program's name, 35 for the place with two numbers of ten digits, 71 for the longest meaning, and a line feed.
const COMPLAINT_BYTES: usize = 120;

// Adds a word and a number. Not by `Display`: its contract says what is written only into a `String`, which allocates; into a buffer of fixed size each `write!` may fail.
fn push_named(told: &mut Line<COMPLAINT_BYTES>, word: &[u8], value: u32)
    requires { length told.old + length word.now + 10 ≤ 120 }
    ensures added { told.new ≡ told.old ++ (word.now ++ digits value) }
    ensures short { length (digits value) ≤ 10 }
{
    told.push_word(word);
    told.push_number(value);
}

// Adds where a refusal is.
#[tactic(auto, using(std::proofs::lemmas::Bool::Decides::nat_tests), unfolding(crate::specs::Complaint::place, crate::specs::Complaint::named, meaning::specs::Meaning::bytes))]
fn push_place(told: &mut Line<COMPLAINT_BYTES>, line: u32, field: u32)
    requires { length told.old + 35 ≤ 120 }
    ensures added { told.new ≡ told.old ++ place line field }
    ensures short { length (place line field) ≤ 35 }
{
    match (line, field) {
        (0, 0) => return,
        (_, 0) => push_named(told, b"line ", line),
        (0, _) => push_named(told, b"field ", field),
        _ => {
            push_named(told, b"line ", line);
            push_named(told, b", field ", field);
        }
    }
    told.push_word(b": ");
}

// The line that tells what is refused; nothing where nothing is.
#[tactic(auto, using(crate::proofs::Telling::refusal_told, crate::proofs::Telling::none_told), unfolding(meaning::specs::Meaning::bytes))]
pub fn complaint(outcome: Result<(), Refused>) -> Line<COMPLAINT_BYTES>
    ensures { result ≡ complaint (refusal_of outcome) }
{
    let mut told: Line<COMPLAINT_BYTES> = Line::new();
    if let Err(refused) = outcome {
        told.push_word(b"stacktable: ");
        push_place(&mut told, refused.line, refused.field);
        told.push_word(meaning(refused.why));
        told.push(LINE_FEED);
    }
    told
}

// The line that tells where the program's input is no step of a session.
#[tactic(auto, unfolding(crate::specs::Complaint::no_step, crate::specs::Complaint::named, meaning::specs::Meaning::bytes))]
pub fn no_step(line: u32) -> Line<COMPLAINT_BYTES>
    ensures { result ≡ no_step line }
{
    let mut told: Line<COMPLAINT_BYTES> = Line::new();
    push_named(&mut told, b"stacktable: line ", line);
    told.push_word(b": no step");
    told.push(LINE_FEED);
    told
}
