//! The controller of a text display.
ghost use Rattle.std.specs.Prelude.{◌≡◌, ◌<◌};
ghost use Rattle.parts_display.specs.Screen.{blank, holds, counting, next, previous, counted, with_data, with_instruction, with_byte, taken};
ghost use Rattle.parts_display.specs.Screen.{shown, shown_at, line};

use part_reactive::bit;
use std::marker::Model;

/// The characters of two lines, and what instructions have set.
#[derive(Drop)]
pub struct Screen {
    cells: [u8; 128],
    address: u8,
    up: bool,
    on: bool,
    wide: bool,
    half: Option<u8>,
    vanishes: bool,
}

impl Model for Screen {
    ghost use Rattle.std.specs.Prelude.{◌<◌};
    ghost use Rattle.parts_display.specs.Screen.{Screen as State, IsHalf};

    ghost Value = { State };

    ghost view = { λ s. record { cells = s.cells; address = s.address; up = s.up; on = s.on; wide = s.wide; half = s.half; vanishes = s.vanishes } };

    ghost invariant = { λ s. record { address : s.address < 128; half : IsHalf s.half } };
}

// Whether an address is one of the two lines.
fn holds(address: u8) -> bool
    ensures { result ≡ holds address }
{
    address < 0x28 || (address >= 0x40 && address < 0x68)
}

fn counting(address: u8) -> u8
    ensures value { result ≡ counting address }
    ensures below { result < 0x68 }
{
    if holds(address) {
        address
    } else if address < 0x40 {
        0x27
    } else {
        0x67
    }
}

fn next(address: u8) -> u8
    requires { address < 0x68 }
    ensures value { result ≡ next address }
    ensures below { result < 0x68 }
{
    match address {
        0x27 => 0x40,
        0x67 => 0,
        _ => address + 1,
    }
}

fn previous(address: u8) -> u8
    requires { address < 0x68 }
    ensures value { result ≡ previous address }
    ensures below { result < 0x68 }
{
    match address {
        0x40 => 0x27,
        0 => 0x67,
        _ => address - 1,
    }
}

fn counted(up: bool, address: u8) -> u8
    ensures value { result ≡ counted up address }
    ensures below { result < 0x68 }
{
    let address = counting(address);
    if up { next(address) } else { previous(address) }
}

fn shown(byte: u8) -> u8
    ensures { result ≡ shown byte }
{
    if byte < 0x20 || 0x7E < byte {
        b'?'
    } else {
        byte
    }
}

impl Screen {
    /// Off, all spaces, in 8-bit mode.
    pub(crate) fn blank() -> Screen
        ensures { result ≡ blank }
    {
        Screen {
            cells: [b' '; 128],
            address: 0,
            up: true,
            on: false,
            wide: true,
            half: None,
            vanishes: false,
        }
    }

    fn write(&mut self, byte: u8)
        ensures { self.new ≡ with_data self.old byte }
    {
        if self.vanishes {
            return;
        }
        if holds(self.address) {
            self.cells[usize::from(self.address)] = byte;
        }
        self.address = counted(self.up, self.address);
    }

    fn instruct(&mut self, byte: u8)
        ensures { self.new ≡ with_instruction self.old byte }
    {
        match byte {
            0x80..=0xFF => {
                self.address = byte - 0x80;
                self.vanishes = false;
            }
            0x40..=0x7F => self.vanishes = true,
            0x20..=0x3F => self.wide = bit(4, byte),
            0x10..=0x1F => {
                if !bit(3, byte) {
                    self.address = counted(bit(2, byte), self.address);
                }
            }
            0x08..=0x0F => self.on = bit(2, byte),
            0x04..=0x07 => self.up = bit(1, byte),
            0x02..=0x03 => {
                self.address = 0;
                self.vanishes = false;
            }
            0x01 => {
                self.cells = [b' '; 128];
                self.address = 0;
                self.up = true;
                self.vanishes = false;
            }
            0x00 => {}
        }
    }

    fn tell(&mut self, rs: bool, byte: u8)
        ensures { self.new ≡ with_byte self.old rs byte }
    {
        if rs {
            self.write(byte);
        } else {
            self.instruct(byte);
        }
    }

    /// Takes RS and D7 to D0.
    pub(crate) fn take(&mut self, rs: bool, lines: u8)
        ensures { self.new ≡ taken self.old rs lines }
    {
        if self.wide {
            self.tell(rs, lines);
            return;
        }
        match self.half {
            None => self.half = Some(lines / 16),
            Some(high) => {
                self.half = None;
                self.tell(rs, high * 16 + lines / 16);
            }
        }
    }

    fn shown_at(&self, address: u8) -> u8
        requires { address < 128 }
        ensures { result ≡ shown_at self.now address }
    {
        if self.on {
            shown(self.cells[usize::from(address)])
        } else {
            b' '
        }
    }

    /// The 16 characters of a line, 0 or 1.
    pub(crate) fn line(&self, row: u8) -> [u8; 16]
        requires { row < 2 }
        ensures { result ≡ line self.now row }
    {
        let first = 0x40 * row;
        [
            self.shown_at(first),
            self.shown_at(first + 1),
            self.shown_at(first + 2),
            self.shown_at(first + 3),
            self.shown_at(first + 4),
            self.shown_at(first + 5),
            self.shown_at(first + 6),
            self.shown_at(first + 7),
            self.shown_at(first + 8),
            self.shown_at(first + 9),
            self.shown_at(first + 10),
            self.shown_at(first + 11),
            self.shown_at(first + 12),
            self.shown_at(first + 13),
            self.shown_at(first + 14),
            self.shown_at(first + 15),
        ]
    }
}
