//! A core is brought into a state, and its registers are read, by instructions of a flash of their own.
use crate::ram::Ram;
use crate::state::State;
use avr_core::Core;
use sim_base::{Flash, OutOfMemory};
use std::alloc::Global;

#[derive(Drop)]
pub struct Probe {
    flash: Flash,
    ram: Ram,
}

/// LDI Rd, K for R16 to R31.
fn ldi(d: u8, k: u8) -> u16 {
    0xE000 | (k as u16 & 0xF0) << 4 | (d as u16 & 0x0F) << 4 | k as u16 & 0x0F
}

/// MOV Rd, R16 for R0 to R15.
fn mov_from_r16(d: u8) -> u16 {
    0x2E00 | (d as u16 & 0x0F) << 4
}

/// Writes a word at a word address.
pub fn put_word(flash: &mut Flash, pc: u16, word: u16) {
    let at = 2 * (pc & 0x3FFF);
    flash.set(at, (word & 0xFF) as u8);
    flash.set(at + 1, (word >> 8) as u8);
}

impl Probe {
    pub fn new(alloc: Global) -> Result<Probe, OutOfMemory> {
        Ok(Probe {
            flash: Flash::blank(alloc)?,
            ram: Ram::new(),
        })
    }

    fn does(&mut self, core: &mut Core, w0: u16, w1: u16) {
        put_word(&mut self.flash, core.pc(), w0);
        put_word(&mut self.flash, core.pc().wrapping_add(1), w1);
        core.exec(&self.flash, &mut self.ram);
    }

    /// The core in a state of the mode Run.
    pub fn core_in(&mut self, state: &State) -> Core {
        let mut core = Core::new();
        // OUT SPL, R16; OUT SPH, R16; OUT SREG, R16
        let outs = [
            (0xBF0D, (state.sp & 0xFF) as u8),
            (0xBF0E, (state.sp >> 8) as u8),
            (0xBF0F, state.sreg),
        ];
        for (out, value) in outs {
            self.does(&mut core, ldi(16, value), 0);
            self.does(&mut core, out, 0);
        }
        for d in 0..16_u8 {
            self.does(&mut core, ldi(16, state.regs[d as usize]), 0);
            self.does(&mut core, mov_from_r16(d), 0);
        }
        for d in 16..32_u8 {
            self.does(&mut core, ldi(d, state.regs[d as usize]), 0);
        }
        // JMP
        self.does(&mut core, 0x940C, state.pc);
        core
    }

    /// The state of a core beside a data space.
    pub fn state_of(&mut self, core: &mut Core, ram: &Ram, cycles: u8) -> State {
        let mut state = State::new();
        state.pc = core.pc();
        state.sreg = core.sreg();
        state.mode = core.mode();
        state.waits = core.sreg() >= 0x80 && !core.may_enter();
        state.cycles = cycles;
        state.ram.bytes = ram.bytes;
        state.ram.bit = ram.bit;
        // STS 0x0100 + d, Rd
        for d in 0..32_u8 {
            self.does(core, 0x9200 | (d as u16) << 4, 0x0100 + d as u16);
            state.set_reg(d, self.ram.bytes[0x0100 + d as usize]);
        }
        // IN R16, SPL; STS 0x0120, R16; IN R16, SPH; STS 0x0121, R16
        self.does(core, 0xB70D, 0);
        self.does(core, 0x9300, 0x0120);
        self.does(core, 0xB70E, 0);
        self.does(core, 0x9300, 0x0121);
        state.sp = self.ram.bytes[0x0120] as u16 + 256 * self.ram.bytes[0x0121] as u16;
        state
    }
}
