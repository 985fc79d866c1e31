// What each refusal means, in words.
#![tactic(auto)]

ghost use Rattle.std.specs.Prelude.{◌≡◌, ◌≤◌, length};
ghost use Rattle.text.specs.Outcome.{number_of};
ghost use Rattle.meaning.specs.Meaning.{bytes, meaning};

use text::Refusal;

// A refusal's meaning.
pub fn meaning(why: Refusal) -> &'static [u8]
    ensures text { result.now ≡ bytes (meaning (number_of why)) }
    ensures short { length result.now ≤ 71 }
{
    match why {
        Refusal::Overlong => b"text above 8,192 bytes (1, overlong)",
        Refusal::Layout => b"wrong word, or a line missing, extra or unended (2, layout)",
        Refusal::Crowd => b"count, channel or floor outside its limits (3, crowd)",
        Refusal::Length => b"strip length outside 1 to 1,000 (4, length)",
        Refusal::Overhang => b"terminal beyond its strip's length (5, overhang)",
        Refusal::Crossing => b"terminal or channel not above the one before it (6, crossing)",
        Refusal::Narrow => b"spread below the first row's (7, narrow)",
        Refusal::ShortSpace => {
            b"output space shorter than the whole text to be written (8, short space)"
        }
        Refusal::Broad => b"spread above 63, too broad for a page (9, broad)",
        Refusal::Unmet => b"no legal placement in this spread has that total (10, unmet)",
        Refusal::Count => b"wrong count of fields, here the first missing or extra (11, count)",
        Refusal::IllFormed => b"ill-formed number (12, number)",
        Refusal::Empty => b"session without a strip, or with none to take off (13, empty)",
        Refusal::Inverted => b"least position above the greatest (14, window)",
    }
}
