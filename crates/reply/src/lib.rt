// The refusals of a spread and of a channel, and how an output ends.
#![tactic(auto)]

ghost use Rattle.std.specs.Prelude.{◌≡◌, true, cond, ltb};
ghost use Rattle.stack.specs.Value.{stack_of};
ghost use Rattle.stack.specs.Limits.{within_limits};
ghost use Rattle.text.specs.Text.{refusal, fine};
ghost use Rattle.text.specs.Outcome.{refusal_of};
ghost use Rattle.reply.specs.Refusals.{narrow_refusal, broad_refusal, asked_refusal};
ghost use Rattle.reply.specs.Parts.{RefusedTable, Finished};

use extent::first_spread;
use stack::Stack;
use text::{Refusal, Refused};
use writing::clear_from;

// Whether a spread can be asked for, where a first one is stated: not one below it.
pub fn narrow_outcome(first: u64, spread: u32) -> Result<(), Refused>
    ensures { refusal_of result ≡ cond (ltb spread first) (refusal 7 0 0) fine }
{
    if (spread as u64) < first {
        return Err(Refused::new(Refusal::Narrow, 0, 0));
    }
    Ok(())
}

// Whether a stack can be asked for a spread: not one below the first.
pub fn spread_outcome(stack: &Stack, spread: u32) -> Result<(), Refused>
    requires { within_limits (stack_of stack.now) ≡ true }
    ensures { refusal_of result ≡ narrow_refusal (stack_of stack.now) spread }
{
    narrow_outcome(first_spread(stack), spread)
}

// A refused table or page: zeros in the whole output.
fn refused_table(why: Refused, output: &mut [u8]) -> Result<usize, Refused>
    ensures { RefusedTable why output.old output.new result }
{
    clear_from(output, 0);
    Err(why)
}

// A table or page of so many bytes that was put where there is space for it: zeros behind it, or short space; or it is refused.
pub fn finish(put: Result<usize, Refused>, output: &mut [u8]) -> Result<usize, Refused>
    ensures { Finished put output.old output.new result }
{
    match put {
        Ok(written) => {
            if output.len() < written {
                return refused_table(Refused::new(Refusal::ShortSpace, 0, 0), output);
            }
            clear_from(output, written);
            Ok(written)
        }
        Err(why) => refused_table(why, output),
    }
}

// The greatest spread that a page can show.
const PAGE_SPREAD: u32 = 63;

// Whether a page can show a spread: none above 63.
#[tactic(auto, unfolding(crate::specs::Refusals::broad_refusal))]
fn broad_outcome(spread: u32) -> Result<(), Refused>
    ensures { refusal_of result ≡ broad_refusal spread }
{
    if PAGE_SPREAD < spread {
        return Err(Refused::new(Refusal::Broad, 0, 0));
    }
    Ok(())
}

// Document 02, P1: whether a page can be asked for: a channel from 1 to k, a spread that is not narrow, and not above 63.
pub fn page_outcome(stack: &Stack, spread: u32, channel: u32) -> Result<(), Refused>
    requires { within_limits (stack_of stack.now) ≡ true }
    ensures { refusal_of result ≡ asked_refusal (stack_of stack.now) spread channel }
{
    if channel < 1 || stack.count < channel as usize {
        return Err(Refused::new(Refusal::Crowd, 0, 0));
    }
    spread_outcome(stack, spread).and(broad_outcome(spread))
}
