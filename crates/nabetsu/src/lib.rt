// The public entries: the table of a text, the least total and the placement for a total in one spread, both also for the session that a text of steps makes, a
// channel's page, the verdict on a placement. Each answers whatever comes in, or refuses.
#![tactic(auto)]

ghost use Rattle.stack.specs.Value.{tracks_of, columns_of, stack_of};
ghost use Rattle.numbers.specs.Lists.{padded};
ghost use Rattle.stack.specs.Limits.{within_limits};
ghost use Rattle.std.specs.Prelude.{ℕ, true, leb, length, get_or, take, Ok, ◌≡◌};
ghost use Rattle.spread.specs.Answers.{TotalSays, PlacementSays};
ghost use Rattle.nabetsu.specs.Entry.{TableSays, TrialSays, TableCoded, TotalCoded, PlacementCoded, code, numbers_placed, numbers_in, NumbersPut, verdict, is_legal_numbers};
ghost use Rattle.text.specs.Text.{refusal, text_refusal, stack_in};
ghost use Rattle.text.specs.Outcome.{number_of};
ghost use Rattle.nabetsu.specs.Best.{TotalBest, PlacementBest};
ghost use Rattle.nabetsu.specs.Pages.{page_refusal, PageSays, PageEnough, PageShows, PageCoded};
ghost use Rattle.replay.specs.Replay.{StepsTotalSays, StepsPlacementSays};
ghost use Rattle.nabetsu.specs.Sessions.{StepsTotalBest, StepsPlacementBest, StepsTotalCoded, StepsPlacementCoded};
ghost use Rattle.nabetsu.specs.Parts.{TextPut, table_in, page_in, ChannelPut, NumbersTried};
ghost use Rattle.reply.specs.Refusals.{asked_refusal};
ghost use Rattle.reply.specs.Told.{zeros};
ghost use Rattle.nabetsu.specs.Space.{SpaceEnough};

use answer::answer_in;
use plot::put_page;
use reading::read_stack;
use replay::replay_steps;
use reply::{finish, page_outcome};
use spread::{placement_of, total_of};
use stack::{Columns, Placement, Stack, Tracks};
use table::put_table;
use text::{Refusal, Refused};
use trial::is_placement_legal;

// How many numbers a placement has with its total: total, separations, positions.
const NUMBERS: usize = 2 * Stack::MAX_CHANNELS + 2;

// Document 02, P3: the least total in one spread of the stack in a text, or the first refusal that applies: the text's, then 7. Nothing is placed.
pub fn least_total(text: &[u8], spread: u32) -> Result<Tracks, Refused>
    ensures total_says { TotalSays text.now spread result }
    ensures total_best { TotalBest text.now spread result }
{
    let stack = read_stack(text)?;
    total_of(&stack, spread)
}

// Document 02, P3: the placement in one spread for a stated total of the stack in a text, or the first refusal that applies: the text's, then 7, then 10.
pub fn place_total(text: &[u8], spread: u32, total: Tracks) -> Result<Placement, Refused>
    ensures placement_says { PlacementSays text.now spread total.0 result }
    ensures placement_best { PlacementBest text.now spread total.0 result }
{
    let stack = read_stack(text)?;
    placement_of(&stack, spread, total)
}

// Enough bytes for the table of every text, whatever its floors and windows: a first line of 8, and at most 265 rows of at most 92.
pub const TABLE_BYTES: usize = 24388;

// The table of the stack in a text over the output's first bytes, where there is space for it, and its length; or the text's refusal.
fn put_text_table(text: &[u8], output: &mut [u8]) -> Result<usize, Refused>
    ensures { TextPut (text_refusal text.now) (table_in text.now) output.new output.new result }
{
    let stack = read_stack(text)?;
    Ok(put_table(&stack, output))
}

// Document 01, "Sent back at the counter": the table of the stack in a text with zeros behind it, or the first refusal that applies, the text's, then 8, and
// zeros in the whole output.
pub fn write_table(text: &[u8], output: &mut [u8]) -> Result<usize, Refused>
    ensures table_says { TableSays text.now result output.old output.new }
    ensures space_enough { SpaceEnough TABLE_BYTES text.now result output.old }
{
    let put = put_text_table(text, output);
    finish(put, output)
}

// Enough bytes for the page of every channel: at most 65 lines of 69.
pub const PAGE_BYTES: usize = 4485;

// The page of a channel of the answer, over the output's first bytes, where there is space for it; its length.
fn put_channel(stack: &Stack, spread: u32, channel: u32, output: &mut [u8]) -> usize
    requires { (within_limits (stack_of stack.now) ≡ true) × ((asked_refusal (stack_of stack.now) spread channel).number ≡ 0) }
    ensures { ChannelPut (stack_of stack.now) spread channel output.old output.new result }
{
    let placement = answer_in(stack, spread);
    let i = channel as usize - 1;
    put_page(
        &stack.channels[i],
        placement.separations[i],
        placement.positions[i],
        placement.positions[i + 1],
        output,
    )
}

// The same of the stack in a text, where the page can be asked for.
fn put_text_page(
    text: &[u8],
    spread: u32,
    channel: u32,
    output: &mut [u8],
) -> Result<usize, Refused>
    ensures { TextPut (page_refusal text.now spread channel) (page_in text.now spread channel) output.old output.new result }
{
    let stack = read_stack(text)?;
    page_outcome(&stack, spread, channel)?;
    Ok(put_channel(&stack, spread, channel, output))
}

// Document 02, P1: the page of a channel in the answer for one spread, with zeros behind it, or the first refusal that applies, the text's, then 3 for the channel,
// 7, 9 and 8, and zeros in the whole output.
pub fn write_page(
    text: &[u8],
    spread: u32,
    channel: u32,
    output: &mut [u8],
) -> Result<usize, Refused>
    ensures page_says { PageSays text.now spread channel result output.old output.new }
    ensures page_shows { PageShows text.now spread channel result output.new }
    ensures page_enough { PageEnough PAGE_BYTES text.now spread channel result output.old }
{
    let put = put_text_page(text, spread, channel, output);
    finish(put, output)
}

// Whether a placement of the stack in a text is legal in a spread, or the first refusal that applies, the text's. Separations and positions are two arrays, as document 01
// names them: a trial states no total, so no `Placement` is given.
pub fn try_placement(
    text: &[u8],
    spread: u32,
    separations: [Tracks; Stack::MAX_CHANNELS],
    positions: [Columns; Stack::STRIPS],
) -> Result<bool, Refused>
    ensures { TrialSays text.now spread (tracks_of separations) (columns_of positions) result }
{
    let stack = read_stack(text)?;
    Ok(is_placement_legal(&stack, spread, separations, positions))
}

// Document 02, P6: the least total in one spread of the session that a text of steps makes, or the first refusal that applies: the text's, the last step's, 13, then 7.
pub fn session_total(steps: &[u8], spread: u32) -> Result<Tracks, Refused>
    ensures steps_total_says { StepsTotalSays steps.now spread result }
    ensures steps_total_best { StepsTotalBest steps.now spread result }
{
    let replay = replay_steps(steps);
    replay.outcome?;
    replay.session.least_total(spread)
}

// Document 02, P6: the placement in one spread for a stated total of that session, or the first refusal that applies: those, then 10.
pub fn session_place(steps: &[u8], spread: u32, total: Tracks) -> Result<Placement, Refused>
    ensures steps_placement_says { StepsPlacementSays steps.now spread total.0 result }
    ensures steps_placement_best { StepsPlacementBest steps.now spread total.0 result }
{
    let replay = replay_steps(steps);
    replay.outcome?;
    replay.session.place_total(spread, total)
}

// The places of a refusal's number and of its line in the number for C, 2^40 and 2^20, as caller/nabetsu.h takes it apart.
const NUMBER_UNIT: u64 = 1 << 40;

const LINE_UNIT: u64 = 1 << 20;

// A refusal in one number for callers in C: its number, its line and its field.
fn code(why: Refused) -> u64
    ensures { (value : ℕ) → result ≡ code (refusal (number_of why.why) why.line why.field) value }
{
    why.why.number() as u64 * NUMBER_UNIT + why.line as u64 * LINE_UNIT + why.field as u64
}

// write_table for callers in other languages: the table's bytes, or the refusal in one number.
pub fn nabetsu_write_table(text: &[u8], output: &mut [u8]) -> u64
    ensures { TableCoded text.now result output.old output.new }
{
    write_table(text, output).map_or_else(code, |written| written as u64)
}

// write_page for callers in other languages: the page's bytes, or the refusal in one number.
pub fn nabetsu_write_page(text: &[u8], spread: u32, channel: u32, output: &mut [u8]) -> u64
    ensures { PageCoded text.now spread channel result output.old output.new }
{
    write_page(text, spread, channel, output).map_or_else(code, |written| written as u64)
}

// least_total for callers in other languages: the total, or the refusal in one number.
pub fn nabetsu_least_total(text: &[u8], spread: u32) -> u64
    ensures { TotalCoded text.now spread result }
{
    least_total(text, spread).map_or_else(code, |total| u64::from(total.0))
}

// Number i of a placement's eighteen: the total, the separations, the positions; zero behind them.
fn number_at(placement: Placement, i: usize) -> u32
    ensures { result ≡ get_or (numbers_placed placement) i 0 }
{
    if i == 0 {
        return placement.total.0;
    }
    if i <= Stack::MAX_CHANNELS {
        return placement.separations[i - 1].0;
    }
    if i < NUMBERS {
        return placement.positions[i - Stack::MAX_CHANNELS - 1].0;
    }
    0
}

// The numbers of a placement, and zeros behind them: for C the total and two arrays stand in one row, so that each number is found by its place there.
fn put_numbers(placement: Placement, output: &mut [u32])
    ensures { output.new ≡ numbers_in (length output.old) (Ok placement) }
{
    for (i, place) in output.iter_mut().enumerate() {
        // Zeros are put without a placement handed on for each: an output may be long.
        *place = if i < NUMBERS {
            number_at(placement, i)
        } else {
            0
        };
    }
}

// A refused placement in numbers: the refusal in one number, and zeros in the whole output.
fn refused_numbers(why: Refused, output: &mut [u32]) -> u64
    ensures coded { (value : ℕ) → result ≡ code (refusal (number_of why.why) why.line why.field) value }
    ensures cleared { output.new ≡ zeros output.old }
{
    output.fill(0);
    code(why)
}

// A placement for callers in other languages: 0 with the total, eight separations and nine positions in the output and zeros behind them, or the refusal in one
// number and zeros in the whole output. An output of fewer than eighteen numbers is short space.
fn put_answer(answer: Result<Placement, Refused>, output: &mut [u32]) -> u64
    ensures { NumbersPut (leb 18 (length output.old)) answer result output.old output.new }
{
    match answer {
        Ok(placement) => {
            if output.len() < NUMBERS {
                return refused_numbers(Refused::new(Refusal::ShortSpace, 0, 0), output);
            }
            put_numbers(placement, output);
            0
        }
        Err(why) => refused_numbers(why, output),
    }
}

// place_total for callers in other languages.
pub fn nabetsu_place_total(text: &[u8], spread: u32, total: u32, output: &mut [u32]) -> u64
    ensures { PlacementCoded text.now spread total result output.old output.new }
{
    put_answer(place_total(text, spread, Tracks(total)), output)
}

// session_total for callers in other languages: the total, or the refusal in one number.
pub fn nabetsu_session_total(steps: &[u8], spread: u32) -> u64
    ensures { StepsTotalCoded steps.now spread result }
{
    session_total(steps, spread).map_or_else(code, |total| u64::from(total.0))
}

// session_place for callers in other languages.
pub fn nabetsu_session_place(steps: &[u8], spread: u32, total: u32, output: &mut [u32]) -> u64
    ensures { StepsPlacementCoded steps.now spread total result output.old output.new }
{
    put_answer(session_place(steps, spread, Tracks(total)), output)
}

// The first N numbers, and zeros behind them where there are fewer.
pub fn padded<const N: usize>(numbers: &[u32]) -> [u32; N]
    ensures { result ≡ padded N (take N numbers.now) }
{
    let mut all = [0; N];
    let given = numbers.len().min(N);
    all[..given].copy_from_slice(&numbers[..given]);
    all
}

// The verdict on a placement given as numbers; numbers that are not seventeen are no placement.
fn try_numbers(text: &[u8], spread: u32, placement: &[u32]) -> Result<bool, Refused>
    ensures { NumbersTried text.now spread placement.now result }
{
    if placement.len() != NUMBERS - 1 {
        read_stack(text)?;
        return Ok(false);
    }
    let (separations, positions) = placement.split_at(Stack::MAX_CHANNELS);
    try_placement(
        text,
        spread,
        padded(separations).map(Tracks),
        padded(positions).map(Columns),
    )
}

// try_placement for callers in other languages, of eight separations and nine positions: 1 for a legal placement, 2 for another, or the refusal in one number.
pub fn nabetsu_try_placement(text: &[u8], spread: u32, placement: &[u32]) -> u64
    ensures { result ≡ code (text_refusal text.now) (verdict (is_legal_numbers (stack_in text.now) spread placement.now)) }
{
    match try_numbers(text, spread, placement) {
        Ok(true) => 1,
        Ok(false) => 2,
        Err(why) => code(why),
    }
}
