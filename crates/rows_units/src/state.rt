//! All that an instruction may change, by the names that rows give it.
use crate::ram::Ram;
use crate::words::{byte, word};
use avr_core::Mode;

#[derive(Drop)]
pub struct State {
    pub regs: [u8; 32],
    pub sreg: u8,
    pub sp: u16,
    pub pc: u16,
    pub mode: Mode,
    /// Whether one more instruction is done before an interrupt is entered.
    pub waits: bool,
    /// Those of the last instruction or entry.
    pub cycles: u8,
    pub ram: Ram,
}

impl State {
    /// Each register holds its number, PC is 0x0010, and the rest is as after reset.
    pub fn new() -> State {
        let mut regs = [0_u8; 32];
        for d in 0..32_u8 {
            regs[d as usize] = d;
        }
        State {
            regs,
            sreg: 0,
            sp: 0x08FF,
            pc: 0x0010,
            mode: Mode::Run,
            waits: false,
            cycles: 1,
            ram: Ram::new(),
        }
    }

    /// Sets what each of the texts names; None where one names nothing.
    pub fn set_all(&mut self, texts: &str) -> Option<()> {
        for text in texts.split_whitespace() {
            self.set(text)?;
        }
        Some(())
    }

    /// - `R16=0F`, `X=0180`, `R25:R24=FFFF`: registers; `SREG`, `SP` and `PC` alike
    /// - `[0180]=5A`: a byte of the data space
    /// - `bit=0025.5.1`: the bit that was written alone
    /// - `mode=sleep`, `mode=9588`: asleep, or halted by a word
    /// - `waits`, `cycles=2`
    fn set(&mut self, text: &str) -> Option<()> {
        if text == "waits" {
            self.waits = true;
            return Some(());
        }
        let (name, value) = text.split_once('=')?;
        match name {
            "SREG" => self.sreg = byte(value)?,
            "SP" => self.sp = word(value)?,
            "PC" => self.pc = word(value)?,
            "cycles" => self.cycles = byte(value)?,
            "mode" => self.mode = mode_of(value)?,
            "bit" => self.ram.bit = bit_of(value)?,
            "X" => self.set_pair(26, word(value)?),
            "Y" => self.set_pair(28, word(value)?),
            "Z" => self.set_pair(30, word(value)?),
            _ => return self.set_numbered(name, value),
        }
        Some(())
    }

    fn set_numbered(&mut self, name: &str, value: &str) -> Option<()> {
        if let Some(addr) = name.strip_prefix('[') {
            self.ram.set(word(addr.strip_suffix(']')?)?, byte(value)?);
        } else if let Some((_, low)) = name.split_once(':') {
            self.set_pair(register(low)?, word(value)?);
        } else {
            self.set_reg(register(name)?, byte(value)?);
        }
        Some(())
    }

    pub fn set_reg(&mut self, d: u8, value: u8) {
        self.regs[d as usize & 31] = value;
    }

    fn set_pair(&mut self, d: u8, value: u16) {
        self.set_reg(d, (value & 0xFF) as u8);
        self.set_reg(d | 1, (value >> 8) as u8);
    }

    /// What another state first differs in. The registers of a core that stands are not seen.
    pub fn difference(&self, seen: &State) -> Option<&'static str> {
        if self.mode != seen.mode {
            Some("another mode")
        } else if self.pc != seen.pc {
            Some("another PC")
        } else if self.cycles != seen.cycles {
            Some("other cycles")
        } else if self.sreg != seen.sreg {
            Some("another SREG")
        } else if self.waits != seen.waits {
            Some("another first instruction before an interrupt")
        } else if self.ram.bytes != seen.ram.bytes {
            Some("other bytes")
        } else if self.ram.bit != seen.ram.bit {
            Some("another bit")
        } else if self.mode == Mode::Run && self.sp != seen.sp {
            Some("another SP")
        } else if self.mode == Mode::Run && self.regs != seen.regs {
            Some("another register")
        } else {
            None
        }
    }
}

fn mode_of(text: &str) -> Option<Mode> {
    if text == "sleep" {
        return Some(Mode::Sleep);
    }
    Some(Mode::Halt(word(text)?))
}

fn bit_of(text: &str) -> Option<(u16, u8, bool)> {
    let (addr, rest) = text.split_once('.')?;
    let (bit, value) = rest.split_once('.')?;
    Some((word(addr)?, byte(bit)?, value == "1"))
}

/// The number of a register that is named as `R16`.
fn register(name: &str) -> Option<u8> {
    let number = name.strip_prefix('R')?.parse::<u8>().ok()?;
    if number < 32 { Some(number) } else { None }
}
