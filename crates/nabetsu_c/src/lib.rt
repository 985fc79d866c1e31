// The entries for callers in other languages, as caller/nabetsu.h declares them: a static library over crate nabetsu, whose functions of the same names they call. They stand
// twice since an exported function is kept thin: what it does is written and proved in nabetsu.
#![tactic(auto)]

ghost use Rattle.std.specs.Prelude.{◌≡◌};
ghost use Rattle.text.specs.Text.{text_refusal, stack_in};
ghost use Rattle.nabetsu.specs.Entry.{TableCoded, TotalCoded, PlacementCoded, code, verdict, is_legal_numbers};
ghost use Rattle.nabetsu.specs.Pages.{PageCoded};
ghost use Rattle.nabetsu.specs.Sessions.{StepsTotalCoded, StepsPlacementCoded};

// write_table for callers in other languages: the table's bytes, or the refusal in one number.
#[unsafe(no_mangle)]
pub extern "C" fn nabetsu_write_table(text: &[u8], output: &mut [u8]) -> u64
    ensures { TableCoded text.now result output.old output.new }
{
    nabetsu::nabetsu_write_table(text, output)
}

// write_page for callers in other languages: the page's bytes, or the refusal in one number.
#[unsafe(no_mangle)]
pub extern "C" fn nabetsu_write_page(
    text: &[u8],
    spread: u32,
    channel: u32,
    output: &mut [u8],
) -> u64
    ensures { PageCoded text.now spread channel result output.old output.new }
{
    nabetsu::nabetsu_write_page(text, spread, channel, output)
}

// least_total for callers in other languages: the total, or the refusal in one number.
#[unsafe(no_mangle)]
pub extern "C" fn nabetsu_least_total(text: &[u8], spread: u32) -> u64
    ensures { TotalCoded text.now spread result }
{
    nabetsu::nabetsu_least_total(text, spread)
}

// place_total for callers in other languages.
#[unsafe(no_mangle)]
pub extern "C" fn nabetsu_place_total(
    text: &[u8],
    spread: u32,
    total: u32,
    output: &mut [u32],
) -> u64
    ensures { PlacementCoded text.now spread total result output.old output.new }
{
    nabetsu::nabetsu_place_total(text, spread, total, output)
}

// session_total for callers in other languages: the total, or the refusal in one number.
#[unsafe(no_mangle)]
pub extern "C" fn nabetsu_session_total(steps: &[u8], spread: u32) -> u64
    ensures { StepsTotalCoded steps.now spread result }
{
    nabetsu::nabetsu_session_total(steps, spread)
}

// session_place for callers in other languages.
#[unsafe(no_mangle)]
pub extern "C" fn nabetsu_session_place(
    steps: &[u8],
    spread: u32,
    total: u32,
    output: &mut [u32],
) -> u64
    ensures { StepsPlacementCoded steps.now spread total result output.old output.new }
{
    nabetsu::nabetsu_session_place(steps, spread, total, output)
}

// try_placement for callers in other languages, of eight separations and nine positions: 1 for a legal placement, 2 for another, or the refusal in one number.
#[unsafe(no_mangle)]
pub extern "C" fn nabetsu_try_placement(text: &[u8], spread: u32, placement: &[u32]) -> u64
    ensures { result ≡ code (text_refusal text.now) (verdict (is_legal_numbers (stack_in text.now) spread placement.now)) }
{
    nabetsu::nabetsu_try_placement(text, spread, placement)
}
