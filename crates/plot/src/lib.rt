// Drawing a channel's page line by line: the columns at which paths come to each track, and the lines around the tracks' rows.
#![tactic(auto)]

ghost use Rattle.std.specs.Prelude.{◌≡◌, suc, ◌+◌, ◌-◌, ◌*◌, ◌≤◌, ◌<◌, min, max, ltb, length, get_or, take};
ghost use Rattle.numbers.specs.Lists.{tabulate};
ghost use Rattle.stack.specs.Value.{channel_of};
ghost use Rattle.writing.specs.Output.{over};
ghost use Rattle.page.specs.Page.{line_of};
ghost use Rattle.page.specs.Arrivals.{ChannelPlaced, painted};
ghost use Rattle.track.specs.Rows.{ColumnsShown};
ghost use Rattle.plot.specs.Drawing.{
  place,
  LevelsLow,
  reached,
  track_drawn,
  ArrivalsShown,
  lines_below,
  EndsAsk,
  LevelsFilled,
  PagePut,
};

use stack::{Columns, Terminals, Tracks};
use std::array;
use track::{Arms, put_row};

const PAIRS: usize = Terminals::MAX_PAIRS;

// The columns of a page.
const COLUMNS: u8 = 64;

// The greatest separation of a page is 64, and a path may be asked for its arrival at the track behind, where it may have passed 64 terminals: 96 places from the first pair
// on; those behind the last pair hold COLUMNS.
const AHEAD: usize = 96;

// 32 places before the first pair, which hold 0, and 32 from it on.
const BACK: usize = 64;

// A line's bytes: three places for the track, a space, the columns, a line feed.
const LINE_BYTES: usize = 69;

const SPACE: u8 = b' ';

const LINE_FEED: u8 = b'\n';

// A number's digit in a place of units, or a space where the number has none there. By hand: with the kit's itoa, right-aligned over spaces, a line takes 23 instructions more,
// 2.6 % of a page of 34 lines.
#[tactic(auto, using(std::proofs::lemmas::Bool::Decides::nat_tests), unfolding(crate::specs::Drawing::place))]
fn place(unit: usize, n: usize) -> u8
    requires { 0 < unit }
    ensures { result ≡ place unit n }
{
    if n < unit && 1 < unit {
        SPACE
    } else {
        b'0' + (n / unit % 10) as u8
    }
}

// The line of track y over the output's first bytes.
fn put_track(out: &mut [u8], starts: &[u8], ends: &[u8], t: usize, y: usize)
    requires { ColumnsShown starts.now × ColumnsShown ends.now × (length ends.now ≡ length starts.now) × (69 ≤ length out.old) × (y < 1000) }
    ensures { out.new ≡ over (line_of y (λ c. painted (λ j. get_or starts.now j 0) (λ j. get_or ends.now j 0) (ltb y t) (ltb 0 y) (length starts.now) c 46)) out.old }
{
    out[0] = place(100, y);
    out[1] = place(10, y);
    out[2] = place(1, y);
    out[3] = SPACE;
    let arms = Arms {
        up: y < t,
        down: 0 < y,
    };
    put_row(&mut out[4..LINE_BYTES - 1], starts, ends, arms);
    out[LINE_BYTES - 1] = LINE_FEED;
}

// The column at which path j, whose last column is q, comes to a track: a path that goes right is not held back by terminals behind it, nor one that goes left by
// terminals ahead, so one of the two is q.
fn arrival(q: u8, ahead: u8, back: u8, j: usize) -> u8
    requires { (q < 64) × (ahead ≤ 64) × (back ≤ 64) × (j < 32) }
    ensures { result ≡ min q (ahead + j) + max q (back + j) - q }
{
    let pair = j as u8;
    q.min(ahead + pair) + q.max(back + pair) - q
}

// What the columns of a channel's paths are worked out from: by pair its lower terminal's column less its number, and its upper terminal's column. The arrays are of
// three lengths, since the first has places behind the last pair and the second before the first one, so they are no array of structs. `count` says how many are pairs, as in
// `Terminals`: a slice in place of `upto` and `count` would borrow from an array elsewhere, and the arrays are filled here.
#[derive(Drop)]
struct Levels {
    ahead: [u8; AHEAD],
    back: [u8; BACK],
    upto: [u8; PAIRS],
    count: usize,
}

impl Levels {
    fn new(terminals: &Terminals, lower: Columns, upper: Columns) -> Levels
        requires { EndsAsk terminals.now lower.0 upper.0 }
        ensures { LevelsFilled terminals.now lower.0 upper.0 terminals.now.count result }
    {
        let mut levels = Levels {
            ahead: [COLUMNS; AHEAD],
            back: [0; BACK],
            upto: [0; PAIRS],
            count: terminals.count,
        };
        // By index: pair j stands at place j of four arrays and at place 32 + j of the fifth.
        for j in 0..terminals.count {
            let level = column(lower, terminals.lower[j]) - j as u8;
            levels.ahead[j] = level;
            levels.back[PAIRS + j] = level;
            levels.upto[j] = column(upper, terminals.upper[j]);
        }
        levels
    }

    // The arrivals of all paths at track y. A path runs one track above the one that document 02's P1 counts (P4), and stands upright below.
    fn arrivals(&self, y: usize) -> [u8; PAIRS]
        requires { LevelsLow self.now × (y ≤ 65) }
        ensures { result ≡ tabulate 32 0 (λ j. reached self.now y j) }
    {
        let passed = y.saturating_sub(1);
        let behind = passed.min(PAIRS);
        array::from_fn(|j| {
            arrival(
                self.upto[j],
                self.ahead[j + passed],
                self.back[PAIRS + j - behind],
                j,
            )
        })
    }
}

// The lines of tracks t to 0, each directly behind the line before it. The end is counted, and the output's part from the current end is lent on to the line's writer: the
// form that document 01 names for rows.
fn put_tracks(out: &mut [u8], levels: &Levels, t: usize)
    requires { LevelsLow levels.now × ArrivalsShown levels.now × (levels.now.count ≤ 32) × (69 * suc t ≤ length out.old) × (t ≤ 64) }
    ensures { take (69 * suc t) out.new ≡ lines_below (λ y c. track_drawn levels.now t y c) (suc t) }
{
    let m = levels.count;
    let mut ends = levels.arrivals(t + 1);
    let mut at = 0;
    for y in (0..=t).rev() {
        let starts = levels.arrivals(y);
        put_track(&mut out[at..], &starts[..m], &ends[..m], t, y);
        ends = starts;
        at += LINE_BYTES;
    }
}

// A terminal's column on a strip at a position.
fn column(position: Columns, terminal: Columns) -> u8
    requires { position.0 + terminal.0 < 64 }
    ensures { result ≡ position.0 + terminal.0 }
{
    (position.0 + terminal.0) as u8
}

// Document 02, P1 and P4: the page of a channel at a separation between strips at two positions, over the output's first bytes, where there is space for it; its length.
pub fn put_page(
    terminals: &Terminals,
    separation: Tracks,
    lower: Columns,
    upper: Columns,
    out: &mut [u8],
) -> usize
    requires { ChannelPlaced 63 (channel_of terminals.now) separation.0 lower.0 upper.0 × (separation.0 ≤ 64) }
    ensures { PagePut (channel_of terminals.now) separation.0 lower.0 upper.0 out.old out.new result }
{
    let t = separation.0 as usize;
    let bytes = LINE_BYTES * (t + 1);
    if out.len() < bytes {
        return bytes;
    }
    let levels = Levels::new(terminals, lower, upper);
    put_tracks(out, &levels, t);
    bytes
}
