//! What a line of a report says.

use avr_omit::{Asked, Omission};
use sim_base::Name;

/// How the processor of an Uno stands; a halted one with the word that halted it.
#[derive(Clone, Copy, Debug, PartialEq, Eq)]
pub enum UnoMode {
    Run,
    Sleep,
    Halt(u16),
}

/// A line of a report; its fields stand in the order of the line.
#[derive(Drop)]
pub enum ReportRow {
    /// `cycles N`: how many cycles of 62.5 ns were run.
    Cycles(u64),
    /// `uno ID pc 0xHHHH run`, or `sleep`, or `halt 0xHHHH`: the program counter, a word address.
    Uno(Name, u16, UnoMode),
    /// `uno ID ignored 0xHH`: the data address of a register that was written and is left out.
    Ignored(Name, u8),
    /// `uno ID omits NAME at N 0xHH 0xHH`: something that is left out, and the first write that asked for it: its cycle, the
    /// data address and the value. No report of a run has it.
    Omits(Name, Omission, Asked),
    /// `led ID on lit N` or `led ID off lit N`: whether it is lit, and in how many cycles it became so.
    Led(Name, bool, u64),
    /// `input ID V`: the value of a button, a switch or a potentiometer.
    Input(Name, u16),
    /// `seg ID HH`: the lit segments, bit 0 is A and bit 7 DP.
    Seg(Name, u8),
    /// `shift ID HH HH`: the stages of a shift register, and its latch.
    Shift(Name, u8, u8),
    /// `lcd ID L |16 characters|`: line 1 or 2 of a text display.
    Lcd(Name, u8, [u8; 16]),
    /// `oled ID on` or `oled ID off`: whether an OLED is on.
    Oled(Name, bool),
    /// `oled ID page P`, and two hexadecimal digits for each of the 128 columns of a page, 0 to 7, of an OLED.
    OledPage(Name, u8, [u8; 128]),
    /// `chip ID alive`.
    Alive(Name),
    /// `chip ID trap K at T`: the trap that ended a chip, and its cycle.
    Trap(Name, u8, u64),
}
