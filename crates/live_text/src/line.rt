//! Text of at most 256 bytes.
ghost use Rattle.std.specs.Prelude.{◌≡◌, ◌≤◌, ◌<◌, ◌+◌, ◌++◌, [], length};
ghost use Rattle.std.specs.Fmt.{decimal};
ghost use Rattle.live_text.specs.Answer.{hex_digit, hex_byte, hex_word};

use arrayvec::ArrayVec;
use itoa::Buffer;
use std::marker::Model;

/// A text that has room for 256 bytes.
#[derive(Drop)]
pub struct Line {
    bytes: ArrayVec<u8, 256>,
}

impl Model for Line {
    ghost use Rattle.std.specs.Prelude.{List, ℕ, ◌≤◌, length};

    ghost Value = { List ℕ };

    ghost view = { λ l. l.bytes.items };

    ghost invariant = { λ l. length l.bytes.items ≤ 256 };
}

fn hex_digit(digit: u8) -> u8
    requires { digit < 16 }
    ensures { result ≡ hex_digit digit }
{
    if digit < 10 {
        b'0' + digit
    } else {
        b'A' + digit - 10
    }
}

impl Line {
    pub fn new() -> Line
        ensures { result ≡ [] }
    {
        Line {
            bytes: ArrayVec::new(),
        }
    }

    pub fn push(&mut self, text: &[u8])
        requires { length self.old + length text.now ≤ 256 }
        ensures { self.new ≡ self.old ++ text.now }
    {
        for b in text {
            self.bytes.push(*b);
        }
    }

    /// Adds a number in decimal digits, which are at most 40.
    pub fn push_number(&mut self, n: u64)
        requires { length self.old + 40 ≤ 256 }
        ensures text { self.new ≡ self.old ++ decimal n }
        ensures short { length self.new ≤ length self.old + 40 }
    {
        let mut buffer = Buffer::new();
        self.push(buffer.format(n).as_bytes());
    }

    /// Adds a number in two hexadecimal digits, in upper case.
    pub fn push_byte(&mut self, n: u8)
        requires { length self.old + 2 ≤ 256 }
        ensures { self.new ≡ self.old ++ hex_byte n }
    {
        self.push(&[hex_digit(n / 16), hex_digit(n % 16)]);
    }

    /// Adds a number in four hexadecimal digits, in upper case.
    pub fn push_word(&mut self, n: u16)
        requires { length self.old + 4 ≤ 256 }
        ensures { self.new ≡ self.old ++ hex_word n }
    {
        self.push_byte((n / 256) as u8);
        self.push_byte((n % 256) as u8);
    }

    pub fn as_slice(&self) -> &[u8]
        ensures { result.now ≡ self.now }
    {
        self.bytes.as_slice()
    }
}
