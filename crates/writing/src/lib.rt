// Writing a table's text: its first line and its rows, each whole or not at all, and zeros behind it; a total's line, and a refusal's.
#![tactic(auto)]

ghost use Rattle.std.specs.Prelude.{◌≡◌, [], ◌∷◌, ◌++◌, ◌+◌, ◌*◌, ◌^◌, ◌<◌, ◌≤◌, length, take};
ghost use Rattle.writing.specs.TableText.{digits, tabbed, row_text, table_text, total_text, refusal_text};
ghost use Rattle.writing.specs.Output.{
  cleared,
  LinePut,
  LinePutAt,
  line_bytes,
  row_of,
  RowAsks,
};

use itoa::Buffer;
use stack::Placement;
use std::marker::Model;

const TAB: u8 = b'\t';

const LINE_FEED: u8 = b'\n';

// The longest line's bytes: ROW, a line feed, and 19 numbers of ten digits, each behind a tab.
const LINE_BYTES: usize = 213;

// A line of at most N bytes, added to at its end.
#[derive(Drop)]
pub struct Line<const N: usize> {
    bytes: [u8; N],
    length: usize,
}

// Clauses see the bytes that were added.
impl<const N: usize> Model for Line<N> {
    ghost use Rattle.std.specs.Prelude.{ℕ, List, ◌≤◌, take};

    ghost Value = { List ℕ };

    ghost view = { λ l. take l.length l.bytes };

    ghost invariant = { λ l. l.length ≤ N };
}

impl<const N: usize> Line<N> {
    pub fn new() -> Self
        ensures { result ≡ [] }
    {
        Line {
            bytes: [0; N],
            length: 0,
        }
    }

    pub fn as_slice(&self) -> &[u8]
        ensures { result.now ≡ self.now }
    {
        &self.bytes[..self.length]
    }

    pub fn push(&mut self, byte: u8)
        requires { length self.old < N }
        ensures { self.new ≡ self.old ++ byte ∷ [] }
    {
        self.bytes[self.length] = byte;
        self.length += 1;
    }

    pub fn push_word(&mut self, word: &[u8])
        requires { length self.old + length word.now ≤ N }
        ensures { self.new ≡ self.old ++ word.now }
    {
        let end = self.length + word.len();
        let bytes = &mut self.bytes[..];
        bytes[self.length..end].copy_from_slice(word);
        self.length = end;
    }

    #[tactic(auto, using(crate::proofs::Digits::digits_decimal, crate::proofs::Digits::digits_below))]
    pub fn push_number(&mut self, value: u32)
        requires { length self.old + 10 ≤ N }
        ensures added { self.new ≡ self.old ++ digits value }
        ensures short { length (digits value) ≤ 10 }
    {
        let mut buffer = Buffer::new();
        self.push_word(buffer.format(value).as_bytes());
    }

    // Adds numbers, each behind a tab.
    #[tactic(auto, using(crate::proofs::Rows::tabbed_none, crate::proofs::Rows::tabbed_added, crate::proofs::Rows::none_short, crate::proofs::Rows::tabbed_longer))]
    pub fn push_tabbed(&mut self, values: &[u32])
        requires { length self.old + 11 * length values.now ≤ N }
        ensures added { self.new ≡ self.old ++ tabbed values.now }
        ensures short { length (tabbed values.now) ≤ 11 * length values.now }
    {
        for value in values {
            self.push(TAB);
            self.push_number(*value);
        }
    }
}

// A line over the output's first bytes, where there is space for it; its length.
#[tactic(auto, using(crate::proofs::Lines::line_fits, crate::proofs::Lines::line_short))]
pub fn put_line(out: &mut [u8], line: &[u8]) -> usize
    requires { length line.now ≤ line_bytes }
    ensures { LinePut line.now out.old out.new result }
{
    if line.len() <= out.len() {
        out[..line.len()].copy_from_slice(line);
    }
    line.len()
}

// Document 01, "Lines and tabs": the first line of a table of k channels over the output's first bytes, where there is space for it; its length.
#[tactic(auto, unfolding(crate::specs::TableText::table_text, crate::specs::TableText::rows_text))]
pub fn put_head(out: &mut [u8], k: usize) -> usize
    requires { k ≤ 9 }
    ensures { LinePut (table_text k []) out.old out.new result }
{
    let mut line: Line<LINE_BYTES> = Line::new();
    line.push_word(b"TABLE");
    line.push_tabbed(&[k as u32]);
    line.push(LINE_FEED);
    put_line(out, line.as_slice())
}

// The row of a placement of k channels over the output's first bytes, where there is space for it; its length. The total is the separations' sum.
pub fn put_row(out: &mut [u8], k: usize, spread: u32, placement: Placement) -> usize
    requires { RowAsks k placement.total.0 placement.separations }
    ensures { LinePut (row_text (row_of k spread placement.separations placement.positions)) out.old out.new result }
{
    let mut line: Line<LINE_BYTES> = Line::new();
    line.push_word(b"ROW");
    line.push_tabbed(&[spread, placement.total.0]);
    line.push_tabbed(&placement.separations.map(|t| t.0)[..k]);
    line.push_tabbed(&placement.positions.map(|x| x.0)[..k + 1]);
    line.push(LINE_FEED);
    put_line(out, line.as_slice())
}

// A total by itself over the output's first bytes, where there is space for it; its length.
pub fn put_total(out: &mut [u8], total: u32) -> usize
    ensures { LinePut (total_text total) out.old out.new result }
{
    let mut line: Line<LINE_BYTES> = Line::new();
    line.push_number(total);
    line.push(LINE_FEED);
    put_line(out, line.as_slice())
}

// Document 01, "Lines and tabs": a refusal's line over the output's first bytes, where there is space for it; its length.
pub fn put_refusal(out: &mut [u8], number: u32, line: u32, field: u32) -> usize
    ensures { LinePut (refusal_text number line field) out.old out.new result }
{
    let mut told: Line<LINE_BYTES> = Line::new();
    told.push_number(number);
    told.push_tabbed(&[line, field]);
    told.push(LINE_FEED);
    put_line(out, told.as_slice())
}

// A row directly behind the line that ends at a place: the output's part from there on is lent on to the row's writer. Where the row ends, space or not.
pub fn put_row_at(out: &mut [u8], at: usize, k: usize, spread: u32, placement: Placement) -> usize
    requires { (at ≤ 2 ^ 32) × RowAsks k placement.total.0 placement.separations }
    ensures { LinePutAt at (row_text (row_of k spread placement.separations placement.positions)) out.old out.new result }
{
    let from = at.min(out.len());
    at + put_row(&mut out[from..], k, spread, placement)
}

// Zeros from a place on.
#[tactic(auto, using(crate::proofs::Lines::cleared_part))]
pub fn clear_from(out: &mut [u8], from: usize)
    ensures { out.new ≡ cleared from out.old }
{
    let from = from.min(out.len());
    out[from..].fill(0);
}
