// A line of text by value.
ghost use Rattle.std.specs.Prelude.{◌≡◌, ℕ, List, [], length, take};
ghost use Rattle.printing.specs.Line.{text_of, stop_text, padded, line_longest, IsLine};
ghost use Rattle.printing.specs.Held.{held};

use crate::hex;
use std::marker::Model;

// Eight digits, a space, three digits and a newline.
pub const LONGEST: usize = 13;

// The text is the first `len` bytes, and those behind it are zero.
#[derive(Clone, Copy)]
pub struct Line {
    bytes: [u8; LONGEST],
    len: usize,
}

impl Model for Line {
    ghost Value = { List ℕ };

    ghost view = { λ l. take l.len l.bytes };

    ghost invariant = { λ l. IsLine l.bytes l.len };

    ghost inverse = { λ text. record { bytes = padded line_longest text; len = length text } };

    ghost inverse_ok = { λ a h. held (λ bytes len. record { bytes = bytes; len = len }) a.bytes a.len h };
}

impl Line {
    pub fn text(&self) -> &[u8]
        ensures { result.now ≡ self.now }
    {
        &self.bytes[..self.len]
    }
}

// CCI, a space, the number in decimal without a zero in front, a newline (01, Replay program).
pub fn line_of(cci: u32, number: u8) -> Line
    ensures { result ≡ text_of cci number }
{
    let [a, b, c, d, e, f, g, h] = hex::digits(cci);
    let hundreds = b'0' + number / 100;
    let tens = b'0' + number / 10 % 10;
    let ones = b'0' + number % 10;
    match number {
        0..=9 => Line {
            bytes: [a, b, c, d, e, f, g, h, b' ', ones, b'\n', 0, 0],
            len: 11,
        },
        10..=99 => Line {
            bytes: [a, b, c, d, e, f, g, h, b' ', tens, ones, b'\n', 0],
            len: 12,
        },
        _ => Line {
            bytes: [a, b, c, d, e, f, g, h, b' ', hundreds, tens, ones, b'\n'],
            len: 13,
        },
    }
}

// The line printed at an unknown kind or a cut record (01, Replay program).
pub fn stop() -> Line
    ensures { result ≡ stop_text }
{
    Line {
        bytes: *b"stop\n\0\0\0\0\0\0\0\0",
        len: 5,
    }
}

// A line without a character, where nothing is printed.
pub fn none() -> Line
    ensures { result ≡ [] }
{
    Line {
        bytes: [0; LONGEST],
        len: 0,
    }
}
