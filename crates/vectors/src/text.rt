// Lines of numbers: the data's form. A line's numbers stand before its first ';', parted by anything that is no digit;
// its label stands behind.
ghost use Rattle.std.specs.Prelude.{◌≤◌, length};

use std::io;
use std::io::Print;
use trial::{get, narrow, put};

// A number with one digit more, or the largest number where that is more.
fn with_digit(n: u32, b: u8) -> u32 {
    let digit = b.saturating_sub(b'0');
    narrow(u64::from(n) * 10 + u64::from(digit))
}

// The place of the first such byte from a place on, or the end.
pub fn place_of(text: &[u8], from: usize, byte: u8) -> usize
    requires { from ≤ length text.now }
    ensures { (from ≤ result) × (result ≤ length text.now) }
{
    for at in from..text.len() {
        if text[at] == byte {
            return at;
        }
    }
    text.len()
}

// A line while it is read: how many numbers are behind, the number at hand, and whether a digit of it was met.
#[derive(Clone, Copy)]
struct Reading {
    count: usize,
    value: u32,
    inside: bool,
}

// Reads a byte; a number that ends here goes to its place.
fn read_byte(numbers: &mut [u32], r: Reading, b: u8) -> Reading {
    if b.is_ascii_digit() {
        return Reading {
            value: with_digit(r.value, b),
            inside: true,
            ..r
        };
    }
    if r.inside {
        put(numbers, r.count, r.value);
        return Reading {
            count: r.count.saturating_add(1),
            value: 0,
            inside: false,
        };
    }
    r
}

// The numbers of a line, from the start of `numbers`; those beyond stay.
pub fn read_numbers(line: &[u8], numbers: &mut [u32]) {
    let end = place_of(line, 0, b';');
    let mut r = Reading {
        count: 0,
        value: 0,
        inside: false,
    };
    for b in line[..end].iter() {
        r = read_byte(numbers, r, *b);
    }
    read_byte(numbers, r, b';');
}

// A number as a byte; 255 where it is none.
pub fn byte(n: u32) -> u8 {
    u8::try_from(n).unwrap_or(255)
}

// Fills a buffer with the bytes that numbers from a place on give.
pub fn lay_bytes(numbers: &[u32], from: usize, bytes: &mut [u8]) {
    for (i, b) in bytes.iter_mut().enumerate() {
        *b = byte(get(numbers, from.saturating_add(i)));
    }
}

// A line's label.
pub fn print_label(rt: &impl Print, line: &[u8]) -> io::Result<()> {
    let at = place_of(line, 0, b';');
    rt.write_all(&line[at..])
}
