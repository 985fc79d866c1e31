// Numbers read and printed by the test programs.
#![tactic(auto)]

ghost use Rattle.std.specs.Prelude.{◌≤◌, length};

use std::io::Read;

// A number of a text and the place behind it.
#[derive(Clone, Copy)]
pub struct Scan {
    pub value: u32,
    pub at: usize,
}

// The first place from `from` on that holds a digit.
fn to_digit(text: &[u8], from: usize) -> usize
    ensures { from ≤ result }
{
    (from..text.len())
        .find(|at| text[*at].is_ascii_digit())
        .unwrap_or(from.max(text.len()))
}

// The next number of a text, of which the last nine digits count, so that every text is answered: `parse` refuses a number that is too long.
pub fn next_number(text: &[u8], from: usize) -> Scan
    ensures { from ≤ result.at }
{
    let start = to_digit(text, from);
    let mut value: u32 = 0;
    // Each digit changes the value, and the first byte that is none ends it: its place is answered too, which a fold of the digits would have to count.
    for at in start..text.len() {
        let byte = text[at];
        if !byte.is_ascii_digit() {
            return Scan { value, at };
        }
        value = value % 100_000_000 * 10 + u32::from(byte - b'0');
    }
    Scan {
        value,
        at: start.max(text.len()),
    }
}

// Reads until the space is full, the input ends or a read fails; how many bytes were read.
pub fn read_full(source: &mut impl Read, text: &mut [u8]) -> usize
    ensures { result ≤ length text.new }
{
    let mut filled = 0;
    // The place goes on by what each read gives, so that there is nothing to count.
    while filled < text.len() {
        match source.read(&mut text[filled..]) {
            Ok(0) | Err(_) => break,
            Ok(more) => filled += more,
        }
    }
    filled
}

// Prints bytes up to the first write that takes nothing or fails, which is passed over; how many were written.
pub fn print_bytes(to: &impl Print, bytes: &[u8]) -> usize
    ensures { result ≤ length bytes.now }
{
    let mut done = 0;
    // The place goes on by what each write takes, as in `read_full`.
    while done < bytes.len() {
        match to.write_some(&bytes[done..]) {
            Ok(0) | Err(_) => break,
            Ok(taken) => done += taken,
        }
    }
    done
}

// Prints a number and answers how many digits it has.
pub fn print_number(to: &impl Print, v: u64) -> usize
    ensures { result ≤ 20 }
{
    let mut digits = [b'0'; 20];
    let mut rest = v;
    let mut at = 20;
    // From the last digit on, of which there is one in any case, up to the first.
    while 0 < at && (at == 20 || 0 < rest) {
        at -= 1;
        digits[at] = (rest % 10) as u8 + b'0';
        rest /= 10;
    }
    print_bytes(to, &digits[at..]);
    20 - at
}
