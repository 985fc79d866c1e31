// A track's row of characters: the points of each path on it, by the column at which the path comes to the track and the column at which it leaves.
#![tactic(auto)]

ghost use Rattle.std.specs.Prelude.{◌≡◌, false, ◌<◌, length, get_or};
ghost use Rattle.numbers.specs.Lists.{tabulate};
ghost use Rattle.page.specs.Page.{arms_character};
ghost use Rattle.page.specs.Arrivals.{drawn, painted};
ghost use Rattle.track.specs.Rows.{ColumnsShown, RowAsks, RunAsks, marked};

// Paths that are looked at together.
const EIGHT: usize = 8;

const DOT: u8 = b'.';

// Whether paths leave a track upward at their ends there, and come to it from below.
#[derive(Clone, Copy)]
pub struct Arms {
    pub up: bool,
    pub down: bool,
}

const NEITHER: Arms = Arms {
    up: false,
    down: false,
};

// The character for each set of arms of a point on a path: left 1, right 2, up 4, down 8. A table of sixteen, as document 02 names it.
const CHARACTERS: [u8; 16] = *b"ooo-o++#o++#|###";

// Document 02, P1: the character of a point on a path by its arms.
fn character(left: bool, right: bool, arms: Arms) -> u8
    ensures { result ≡ arms_character left right arms.up arms.down }
{
    let beside = usize::from(left) + 2 * usize::from(right);
    CHARACTERS[beside + 4 * usize::from(arms.up) + 8 * usize::from(arms.down)]
}

// The points of a path that runs on a track from column s to column e, in the track's row of characters.
fn put_run(row: &mut [u8], s: u8, e: u8, arms: Arms)
    requires { RunAsks row.old s e }
    ensures { row.new ≡ tabulate 64 0 (λ c. drawn s e arms.up arms.down c (get_or row.old c 0)) }
{
    let right = s < e;
    let begun = Arms { up: false, ..arms };
    let ended = Arms {
        down: false,
        ..arms
    };
    row[s.min(e) as usize + 1..s.max(e) as usize].fill(character(true, true, NEITHER));
    row[s as usize] = character(!right, right, begun);
    row[e as usize] = character(right, !right, ended);
}

// The points of a path that is on a track from column s to column e: one character where it only passes upward.
fn put_path(row: &mut [u8], s: u8, e: u8, upright: u8, arms: Arms)
    requires { (length row.old ≡ 64) × (s < 64) × (e < 64) × (upright ≡ arms_character false false arms.up arms.down) }
    ensures { row.new ≡ tabulate 64 0 (λ c. drawn s e arms.up arms.down c (get_or row.old c 0)) }
{
    if s == e {
        row[s as usize] = upright;
    } else {
        put_run(row, s, e, arms);
    }
}

// The paths from their columns in starts to those in ends, in the track's row.
fn put_paths(row: &mut [u8], starts: &[u8], ends: &[u8], arms: Arms)
    requires { RowAsks row.old starts.now ends.now }
    ensures { row.new ≡ tabulate 64 0 (λ c. painted (λ j. get_or starts.now j 0) (λ j. get_or ends.now j 0) arms.up arms.down (length starts.now) c (get_or row.old c 0)) }
{
    let upright = character(false, false, arms);
    for (start, end) in starts.iter().zip(ends) {
        put_path(row, *start, *end, upright, arms);
    }
}

// One character at the columns of eight paths.
fn put_uprights(row: &mut [u8], columns: &[u8; EIGHT], character: u8)
    requires { (length row.old ≡ 64) × ColumnsShown columns.now }
    ensures { row.new ≡ tabulate 64 0 (λ c. marked (λ j. get_or columns.now j 0) character 8 c (get_or row.old c 0)) }
{
    for column in columns {
        row[*column as usize] = character;
    }
}

// Eight paths; where all of them only pass upward, one character each. With `put_paths` alone a page on which paths run side by side takes 33,034 instructions for 29,846, one of
// stairs 41,016 for 40,132.
fn put_eight(row: &mut [u8], starts: &[u8; EIGHT], ends: &[u8; EIGHT], arms: Arms)
    requires { RowAsks row.old starts.now ends.now }
    ensures { row.new ≡ tabulate 64 0 (λ c. painted (λ j. get_or starts.now j 0) (λ j. get_or ends.now j 0) arms.up arms.down 8 c (get_or row.old c 0)) }
{
    if starts == ends {
        put_uprights(row, ends, character(false, false, arms));
    } else {
        put_paths(row, starts, ends, arms);
    }
}

// The characters of a track on which each path is from its column in starts to its column in ends. The row is a part of a line of the page, so a slice that is asked to
// have 64 bytes: an array would come of it by `as_mut_array` as an option, whose `None` never comes. Starts and ends are parts of two arrays, since one track's starts
// are the ends of the track below.
pub fn put_row(row: &mut [u8], starts: &[u8], ends: &[u8], arms: Arms)
    requires { RowAsks row.old starts.now ends.now }
    ensures { row.new ≡ tabulate 64 0 (λ c. painted (λ j. get_or starts.now j 0) (λ j. get_or ends.now j 0) arms.up arms.down (length starts.now) c 46) }
{
    row.fill(DOT);
    let (starts_by_eight, other_starts) = starts.as_chunks::<EIGHT>();
    let (ends_by_eight, other_ends) = ends.as_chunks::<EIGHT>();
    for (start, end) in starts_by_eight.iter().zip(ends_by_eight) {
        put_eight(row, start, end, arms);
    }
    put_paths(row, other_starts, other_ends, arms);
}
