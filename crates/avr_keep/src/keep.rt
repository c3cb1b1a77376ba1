//! Both as one unit.
ghost use Rattle.std.specs.Prelude.{◌≡◌, ℕ, ◌+◌, ◌-◌, ◌<◌, ◌≤◌, min, true, slice_index};
ghost use Rattle.avr_unit.specs.Bits.{with_bit};
ghost use Rattle.avr_keep.specs.Keep.{register, with_register, kept};
ghost use Rattle.avr_keep.specs.Watchdog.{has_reset};

use crate::eeprom::{Eeprom, end_of};
use crate::registers::{EE_READY, Register, WDT, register_at};
use crate::watchdog::Watchdog;
use avr_unit::{Awake, Pad, Request, Unit, least, or_end, with_bit, within_run};
use part_law::Span;
use sim_base::{Level, MOST_CYCLES};
use std::marker::Model;

/// The watchdog and the EEPROM, before the step of `cycle`.
#[derive(Drop)]
pub struct Keep {
    watchdog: Watchdog,
    eeprom: Eeprom,
    cycle: u64,
}

impl Model for Keep {
    ghost use Rattle.std.specs.Prelude.{◌<◌, ◌≤◌};
    ghost use Rattle.avr_unit.specs.UnitMachine.{At};
    ghost use Rattle.avr_unit.specs.Coming.{IsAhead};
    ghost use Rattle.avr_keep.specs.EepromState.{Suits};
    ghost use Rattle.avr_keep.specs.Keep.{Keep as State};
    ghost use Rattle.sim_base.specs.declared.limits.TheConstants.{MOST_CYCLES};

    ghost Value = { At State };

    ghost view = { λ u. record { unit = record { watchdog = u.watchdog; eeprom = u.eeprom }; cycle = u.cycle } };

    ghost invariant = { λ u. record {
      end : u.cycle ≤ MOST_CYCLES;
      since : u.watchdog.since ≤ MOST_CYCLES;
      wdp : u.watchdog.wdp < 16;
      opens : IsAhead u.watchdog.window u.cycle;
      suits : Suits u.eeprom u.cycle;
    } };
}

impl Unit for Keep {
    ghost use Rattle.avr_keep.specs.Keep.{Keep as State, keep};
    ghost use Rattle.avr_keep.specs.KeepLaws.{keep_laws, keep_reaches};
    ghost use Rattle.avr_unit.specs.Reach.{nowhere};

    ghost State = { State };

    ghost machine = { keep };

    ghost shows = { λ u. u };

    ghost reach = { nowhere };

    fn new() -> Keep {
        Keep {
            watchdog: Watchdog::new(),
            eeprom: Eeprom::new(),
            cycle: 0,
        }
    }

    /// It asks nothing.
    #[inline(always)]
    #[tactic(auto, using(crate::proofs::PlacedLemmas::keep_placed))]
    fn pins() -> Span {
        Span::none()
    }

    #[inline(always)]
    fn has(reg: u8) -> bool {
        register_at(reg).is_some()
    }

    #[inline(always)]
    fn reading_keeps(_reg: u8) -> bool {
        true
    }

    #[inline]
    fn hears(&self, _before: &[Level], _now: &[Level]) -> bool {
        false
    }

    fn read(&mut self, _levels: &[Level], reg: u8) -> u8 {
        self.register(register_at(reg).unwrap())
    }

    fn write(&mut self, reg: u8, value: u8) -> Span {
        self.set_register(register_at(reg).unwrap(), value);
        Span::none()
    }

    fn write_bit(&mut self, reg: u8, bit: u8, value: bool) -> Span {
        let register = register_at(reg).unwrap();
        self.set_register(register, with_bit(self.kept(register), bit, value));
        Span::none()
    }

    fn skip(&mut self, to: u64) {
        self.cycle = to;
    }

    fn step(&mut self, _before: &[Level], _now: &[Level]) -> (Option<u8>, Span) {
        self.watchdog.step(self.cycle);
        self.eeprom.step(self.cycle);
        self.cycle += 1;
        (None, Span::none())
    }

    fn due(&self) -> Option<u64> {
        let windows = or_end(self.watchdog.window).min(or_end(self.eeprom.window));
        let ends = or_end(end_of(self.eeprom.programming));
        let time_out = self.watchdog.time_out().max(self.cycle);
        within_run(windows.min(ends).min(time_out))
    }

    fn request(&self, _levels: &[Level]) -> u8 {
        least(&[
            Request {
                vector: WDT,
                enabled: self.watchdog.wdie,
                flag: self.watchdog.wdif,
            },
            Request {
                vector: EE_READY,
                enabled: self.eeprom.eerie,
                flag: self.eeprom.programming.is_none(),
            },
        ])
    }

    fn taken(&mut self, vector: u8) {
        if vector == WDT {
            self.watchdog.taken();
        }
    }

    #[inline]
    fn pad(&self, _pin: u8) -> Pad {
        Pad::untouched()
    }

    ghost laws = { keep_laws };

    ghost reaches = { keep_reaches };
}

impl Awake for Keep {
    fn rouses(&self, _levels: &[Level]) -> bool {
        self.watchdog.wdie & self.watchdog.wdif
    }

    fn wdr(&mut self) {
        self.watchdog.clear(self.cycle);
    }

    fn resets(&self, cycle: u64) -> bool {
        self.watchdog.resets(cycle)
    }

    fn restart(&mut self) {
        self.watchdog.restart();
        self.eeprom.restart();
    }

    fn doze(&mut self) {}
}

impl Keep {
    /// Whether the last step ended in a watchdog reset.
    pub fn reset(&self) -> bool
        ensures { result ≡ has_reset self.now.unit.watchdog self.now.cycle }
    {
        self.watchdog.has_reset(self.cycle)
    }

    /// A byte of the EEPROM.
    pub fn cell(&self, address: u16) -> u8
        requires { address < 1024 }
        ensures { result ≡ slice_index self.now.unit.eeprom.cells address }
    {
        self.eeprom.cells[address as usize]
    }

    fn register(&self, reg: Register) -> u8
        ensures { result ≡ register self.now.unit reg }
    {
        match reg {
            Register::EECR => self.eeprom.eecr(),
            Register::EEDR => self.eeprom.eedr,
            Register::EEARL => (self.eeprom.eear % 256) as u8,
            Register::EEARH => (self.eeprom.eear / 256) as u8,
            Register::MCUSR => self.watchdog.mcusr,
            Register::WDTCSR => self.watchdog.wdtcsr(),
        }
    }

    fn kept(&self, reg: Register) -> u8
        ensures { result ≡ kept self.now.unit reg }
    {
        match reg {
            Register::EECR => self.eeprom.kept(),
            Register::EEDR => self.eeprom.eedr,
            Register::EEARL => (self.eeprom.eear % 256) as u8,
            Register::EEARH => (self.eeprom.eear / 256) as u8,
            Register::MCUSR => self.watchdog.mcusr,
            Register::WDTCSR => self.watchdog.kept(),
        }
    }

    fn set_register(&mut self, reg: Register, value: u8)
        ensures { self.new ≡ record self.old { unit = with_register self.old.unit self.old.cycle reg value } }
    {
        match reg {
            Register::EECR => self.eeprom.set_eecr(self.cycle, value),
            Register::EEDR => self.eeprom.eedr = value,
            Register::EEARL => self.eeprom.set_eearl(value),
            Register::EEARH => self.eeprom.set_eearh(value),
            Register::MCUSR => self.watchdog.set_mcusr(value),
            Register::WDTCSR => self.watchdog.set_wdtcsr(self.cycle, value),
        }
    }
}
