// The spans that a placement for a stated total can ask for, strip by strip from the top down: no total is searched for.
#![tactic(auto)]

ghost use Rattle.std.specs.Prelude.{◌≡◌, ◌+◌, ◌-◌, ◌<◌, min};
ghost use Rattle.arrays.specs.Arrays.{Banded};
ghost use Rattle.band.specs.Band.{StripAsked, StripFilled, BandAsks};

use arrays::{ChannelLimits, Given, SpanTable};
use scan::{Cell, count_empty, put_window, scan_strip};

// Writes the spans of one strip from the cell's total to the last one, and answers below which total they are known to be empty. A loop over totals: each writes in
// the one table, and goes on from what the one before is known to be.
fn fill_strip(limits: &ChannelLimits, first: Cell, last: usize, table: &mut SpanTable) -> usize
    requires { StripAsked limits.now first last table.old }
    ensures { StripFilled limits.now first (last + 1) table.old table.new result }
{
    let mut empty = first.v;
    for v in first.v..last + 1 {
        let short = scan_strip(limits, first.at(v), table);
        empty = count_empty(empty, 0, v, short);
    }
    empty
}

// The first total in the band of strip i, where the channels from it on can use so much of all.
fn first_in_band(total: usize, used: usize, all: usize, i: usize) -> usize
    requires total { total < 4294967296 }
    requires used { used < 4096 }
    requires all { all < 4096 }
    requires strip { i < 4096 }
    ensures { result ≡ min used (total + used - (all + i)) }
{
    used.min((total + used).saturating_sub(all + i))
}

// Writes the spans of all strips for the totals in their bands. A loop over strips: each reads in the table what the one above it wrote.
pub fn fill_band(given: &Given, total: usize, table: &mut SpanTable)
    requires { BandAsks given.now total table.old }
    ensures { Banded given.now total 0 table.new }
{
    put_window(given, table);
    let all = given.plan.above[0];
    let mut empty = 0;
    for i in (0..given.channels).rev() {
        let used = given.plan.above[i];
        let first = Cell::of(given, i, first_in_band(total, used, all, i), empty);
        empty = fill_strip(&given.limits[i], first, used.min(total), table);
    }
}
