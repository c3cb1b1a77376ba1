//! The ports with their interrupts.
ghost use Rattle.std.specs.Prelude.{◌≡◌, ◌+◌, ◌-◌, ◌<◌, ◌≤◌, ◌==◌, ◌&&◌, ◌||◌, ℕ, [], length, true, false, not};
ghost use Rattle.avr_unit.specs.Bits.{is_set};
ghost use Rattle.avr_unit.specs.UnitMachine.{least, steps};
ghost use Rattle.avr_ports.specs.Ports.{requests, requests_int, acts_by_ones, register, with_register, with_register_bit, edges_sensed, changes_sensed, ports_step};
ghost use Rattle.avr_ports.specs.Deaf.{is_deaf};
ghost use Rattle.avr_ports.specs.PinsAt.{pins_at};
ghost use Rattle.avr_ports.specs.PortReach.{Least, turned, first_pin, reached, bit_reached};
ghost use Rattle.avr_ports.specs.declared.registers.Register.TheVariants.{PCIFR, EIFR, EICRA};

use crate::pins::{bit_pad, is_change, is_edge, on, pinb, pinc, pind, requests_int};
use crate::registers::{INT0, INT1, PCINT0, PCINT1, PCINT2, PINB, PORTD, Register, register_at};
use avr_unit::{
    Awake, PORT_PINS, Pad, Request, Unit, VECTORS, has_bit, least, mask, one, with_bit,
};
use part_law::Span;
use sim_base::{Level, MOST_CYCLES};
use std::marker::Model;

/// The ports, before the step of `cycle`.
#[derive(Drop)]
pub struct Ports {
    ddrb: u8,
    portb: u8,
    ddrc: u8,
    portc: u8,
    ddrd: u8,
    portd: u8,
    eicra: u8,
    eimsk: u8,
    intf0: bool,
    intf1: bool,
    pcicr: u8,
    pcmsk0: u8,
    pcmsk1: u8,
    pcmsk2: u8,
    pcif0: bool,
    pcif1: bool,
    pcif2: bool,
    cycle: u64,
}

impl Model for Ports {
    ghost use Rattle.std.specs.Prelude.{◌≤◌};
    ghost use Rattle.avr_unit.specs.UnitMachine.{At};
    ghost use Rattle.avr_ports.specs.Ports.{Ports as State};
    ghost use Rattle.sim_base.specs.declared.limits.TheConstants.{MOST_CYCLES};

    ghost Value = { At State };

    ghost view = { λ p. record { unit = record { ddrb = p.ddrb; portb = p.portb; ddrc = p.ddrc; portc = p.portc; ddrd = p.ddrd; portd = p.portd; eicra = p.eicra; eimsk = p.eimsk; intf0 = p.intf0; intf1 = p.intf1; pcicr = p.pcicr; pcmsk0 = p.pcmsk0; pcmsk1 = p.pcmsk1; pcmsk2 = p.pcmsk2; pcif0 = p.pcif0; pcif1 = p.pcif1; pcif2 = p.pcif2 }; cycle = p.cycle } };

    ghost invariant = { λ p. p.cycle ≤ MOST_CYCLES };
}

impl Unit for Ports {
    ghost use Rattle.avr_ports.specs.Ports.{Ports as State, ports};
    ghost use Rattle.avr_ports.specs.PortLaws.{ports_laws};
    ghost use Rattle.avr_ports.specs.PortReach.{ports_reach, ports_reaches};

    ghost State = { State };

    ghost machine = { ports };

    ghost shows = { λ p. p };

    ghost reach = { ports_reach };

    fn new() -> Ports {
        Ports {
            ddrb: 0,
            portb: 0,
            ddrc: 0,
            portc: 0,
            ddrd: 0,
            portd: 0,
            eicra: 0,
            eimsk: 0,
            intf0: false,
            intf1: false,
            pcicr: 0,
            pcmsk0: 0,
            pcmsk1: 0,
            pcmsk2: 0,
            pcif0: false,
            pcif1: false,
            pcif2: false,
            cycle: 0,
        }
    }

    /// Each pin.
    #[inline(always)]
    #[tactic(auto, using(crate::proofs::PlacedLemmas::ports_placed))]
    fn pins() -> Span {
        Span::all()
    }

    /// PINx, DDRx and PORTx, from PINB on up to PORTD, have no part in what is requested.
    #[inline(always)]
    #[tactic(auto, using(crate::proofs::NextLemmas::ports_writes))]
    fn writing_keeps_next(reg: u8) -> bool {
        (PINB <= reg) & (reg <= PORTD)
    }

    #[inline(always)]
    fn has(reg: u8) -> bool {
        register_at(reg).is_some()
    }

    #[inline(always)]
    fn reading_keeps(_reg: u8) -> bool {
        true
    }

    #[inline]
    fn hears(&self, _before: &[Level], _now: &[Level]) -> bool {
        !self.is_deaf()
    }

    #[inline]
    fn read(&mut self, levels: &[Level], reg: u8) -> u8 {
        self.register(levels, register_at(reg).unwrap())
    }

    #[inline]
    fn write(&mut self, reg: u8, value: u8) -> Span {
        let register = register_at(reg).unwrap();
        let moved = self.reached(register, value);
        self.set_register(register, value);
        moved
    }

    #[inline]
    fn write_bit(&mut self, reg: u8, bit: u8, value: bool) -> Span {
        let register = register_at(reg).unwrap();
        let moved = self.bit_reached(register, bit, value);
        self.set_register_bit(register, bit, value);
        moved
    }

    #[inline]
    fn skip(&mut self, to: u64) {
        self.cycle = to;
    }

    fn step(&mut self, before: &[Level], now: &[Level]) -> (Option<u8>, Span) {
        self.sense_edges(before, now);
        self.sense_changes(before, now);
        self.cycle += 1;
        (None, Span::none())
    }

    #[inline]
    fn due(&self) -> Option<u64> {
        None
    }

    #[inline]
    fn request(&self, levels: &[Level]) -> u8 {
        if (self.eimsk == 0) & (self.pcicr == 0) {
            return VECTORS;
        }
        self.requested(levels)
    }

    fn taken(&mut self, vector: u8) {
        match vector {
            INT0 => self.intf0 = false,
            INT1 => self.intf1 = false,
            PCINT0 => self.pcif0 = false,
            PCINT1 => self.pcif1 = false,
            PCINT2 => self.pcif2 = false,
            _ => {}
        }
    }

    #[inline]
    fn pad(&self, pin: u8) -> Pad {
        if pin < 8 {
            bit_pad(self.ddrd, self.portd, pin)
        } else if pin < 14 {
            bit_pad(self.ddrb, self.portb, pin - 8)
        } else {
            bit_pad(self.ddrc, self.portc, pin - 14)
        }
    }

    ghost laws = { ports_laws };

    ghost reaches = { ports_reaches };
}

impl Awake for Ports {
    fn rouses(&self, levels: &[Level]) -> bool {
        let int0 = has_bit(self.eimsk, 0) & calls_int(self.intf0, self.eicra % 4, on(levels, 2));
        let int1 = has_bit(self.eimsk, 1)
            & calls_int(self.intf1, self.eicra / 4 % 4, on(levels, 3));
        int0 | (int1 | self.has_change())
    }

    fn wdr(&mut self) {}

    fn resets(&self, _cycle: u64) -> bool {
        false
    }

    fn restart(&mut self) {
        *self = Ports {
            cycle: self.cycle,
            ..Ports::new()
        };
    }

    fn doze(&mut self) {}
}

// Whether an external interrupt requests by its low level.
fn calls_int(flag: bool, sense: u8, high: bool) -> bool
    ensures { result ≡ (sense == 0 && requests_int flag sense high) }
{
    sense == 0 && requests_int(flag, sense, high)
}

impl Ports {
    // Whether a pin has changed and its interrupt is enabled.
    fn has_change(&self) -> bool
        ensures { result ≡ ((is_set self.now.unit.pcicr 0 && self.now.unit.pcif0) || ((is_set self.now.unit.pcicr 1 && self.now.unit.pcif1) || (is_set self.now.unit.pcicr 2 && self.now.unit.pcif2))) }
    {
        let first = has_bit(self.pcicr, 0) & self.pcif0;
        let second = has_bit(self.pcicr, 1) & self.pcif1;
        first | (second | has_bit(self.pcicr, 2) & self.pcif2)
    }

    // What it requests where something is enabled.
    fn requested(&self, levels: &[Level]) -> u8
        requires { length levels.now ≡ PORT_PINS }
        ensures { result ≡ least (requests self.now.unit levels.now) }
    {
        least(&[
            Request {
                vector: INT0,
                enabled: has_bit(self.eimsk, 0),
                flag: requests_int(self.intf0, self.eicra % 4, on(levels, 2)),
            },
            Request {
                vector: INT1,
                enabled: has_bit(self.eimsk, 1),
                flag: requests_int(self.intf1, self.eicra / 4 % 4, on(levels, 3)),
            },
            Request {
                vector: PCINT0,
                enabled: has_bit(self.pcicr, 0),
                flag: self.pcif0,
            },
            Request {
                vector: PCINT1,
                enabled: has_bit(self.pcicr, 1),
                flag: self.pcif1,
            },
            Request {
                vector: PCINT2,
                enabled: has_bit(self.pcicr, 2),
                flag: self.pcif2,
            },
        ])
    }

    // What a register gives; PINx the levels of the cycle before.
    fn register(&self, levels: &[Level], reg: Register) -> u8
        requires { length levels.now ≡ PORT_PINS }
        ensures { result ≡ register self.now.unit levels.now reg }
    {
        match reg {
            Register::PINB => pinb(levels),
            Register::DDRB => self.ddrb,
            Register::PORTB => self.portb,
            Register::PINC => pinc(levels),
            Register::DDRC => self.ddrc,
            Register::PORTC => self.portc,
            Register::PIND => pind(levels),
            Register::DDRD => self.ddrd,
            Register::PORTD => self.portd,
            Register::PCIFR => one(self.pcif0) + 2 * one(self.pcif1) + 4 * one(self.pcif2),
            Register::EIFR => one(self.intf0) + 2 * one(self.intf1),
            Register::EIMSK => self.eimsk,
            Register::PCICR => self.pcicr,
            Register::EICRA => self.eicra,
            Register::PCMSK0 => self.pcmsk0,
            Register::PCMSK1 => self.pcmsk1,
            Register::PCMSK2 => self.pcmsk2,
        }
    }

    // What a register that does not act by ones keeps.
    fn kept(&self, reg: Register) -> u8
        requires { acts_by_ones reg ≡ false }
        ensures { result ≡ register self.now.unit [] reg }
    {
        match reg {
            Register::DDRB => self.ddrb,
            Register::PORTB => self.portb,
            Register::DDRC => self.ddrc,
            Register::PORTC => self.portc,
            Register::DDRD => self.ddrd,
            Register::PORTD => self.portd,
            Register::EIMSK => self.eimsk,
            Register::PCICR => self.pcicr,
            Register::EICRA => self.eicra,
            Register::PCMSK0 => self.pcmsk0,
            Register::PCMSK1 => self.pcmsk1,
            Register::PCMSK2 => self.pcmsk2,
            _ => unreachable!(),
        }
    }

    // Writes a register: a 1 in PINx toggles the bit of PORTx, and a 1 in EIFR or PCIFR clears the flag.
    fn set_register(&mut self, register: Register, value: u8)
        ensures { self.new ≡ record self.old { unit = with_register self.old.unit register value } }
    {
        match register {
            Register::PINB => self.portb ^= value,
            Register::DDRB => self.ddrb = value,
            Register::PORTB => self.portb = value,
            Register::PINC => self.portc ^= value,
            Register::DDRC => self.ddrc = value,
            Register::PORTC => self.portc = value,
            Register::PIND => self.portd ^= value,
            Register::DDRD => self.ddrd = value,
            Register::PORTD => self.portd = value,
            Register::PCIFR => self.clear_changes(value),
            Register::EIFR => self.clear_edges(value),
            Register::EIMSK => self.eimsk = value,
            Register::PCICR => self.pcicr = value,
            Register::EICRA => self.choose_sense(value),
            Register::PCMSK0 => self.pcmsk0 = value,
            Register::PCMSK1 => self.pcmsk1 = value,
            Register::PCMSK2 => self.pcmsk2 = value,
        }
    }

    // Writes one bit alone, as SBI and CBI do: a 1 in PINx, EIFR or PCIFR acts, and a 0 does nothing there.
    fn set_register_bit(&mut self, register: Register, bit: u8, value: bool)
        requires bit { bit < 8 }
        ensures { self.new ≡ record self.old { unit = with_register_bit self.old.unit register bit value } }
    {
        match register {
            Register::PINB | Register::PINC | Register::PIND | Register::PCIFR | Register::EIFR =>
                self.write_one(register, bit, value),
            _ => self.set_register(register, with_bit(self.kept(register), bit, value)),
        }
    }

    // The pins that a write of a register reaches: those of which it changes what they are asked for, and those between.
    #[inline]
    fn reached(&self, register: Register, value: u8) -> Span
        ensures value { result ≡ reached self.now.unit register value }
        ensures least { Least (with_register self.now.unit register value) self.now.unit result }
    {
        pins_at(first_pin(register), self.turned(register, value))
    }

    // The pin that a write of one bit alone reaches.
    #[inline]
    fn bit_reached(&self, register: Register, bit: u8, value: bool) -> Span
        requires { bit < 8 }
        ensures value { result ≡ bit_reached self.now.unit register bit value }
        ensures least { Least (with_register_bit self.now.unit register bit value) self.now.unit result }
    {
        if acts_by_ones(register) {
            self.one_reached(register, bit, value)
        } else {
            self.reached(register, with_bit(self.kept(register), bit, value))
        }
    }

    // The pin that writing a 1 into a register of which ones act reaches.
    #[inline]
    fn one_reached(&self, register: Register, bit: u8, value: bool) -> Span
        requires register { acts_by_ones register ≡ true }
        requires bit { bit < 8 }
        ensures { result ≡ bit_reached self.now.unit register bit value }
    {
        if value {
            self.reached(register, mask(bit))
        } else {
            Span::none()
        }
    }

    // The bits that a write turns over, of those that have a pin; a 1 in PINx toggles PORTx.
    #[inline]
    fn turned(&self, register: Register, value: u8) -> u8
        ensures { result ≡ turned self.now.unit register value }
    {
        match register {
            Register::PINB | Register::PINC => value % 64,
            Register::PIND => value,
            Register::DDRB => (value ^ self.ddrb) % 64,
            Register::PORTB => (value ^ self.portb) % 64,
            Register::DDRC => (value ^ self.ddrc) % 64,
            Register::PORTC => (value ^ self.portc) % 64,
            Register::DDRD => value ^ self.ddrd,
            Register::PORTD => value ^ self.portd,
            _ => 0,
        }
    }

    // Clears the flags of PCIFR at which the value has a 1.
    fn clear_changes(&mut self, value: u8)
        ensures { self.new ≡ record self.old { unit = with_register self.old.unit PCIFR value } }
    {
        self.pcif0 = self.pcif0 & !has_bit(value, 0);
        self.pcif1 = self.pcif1 & !has_bit(value, 1);
        self.pcif2 = self.pcif2 & !has_bit(value, 2);
    }

    // Clears the flags of EIFR at which the value has a 1.
    fn clear_edges(&mut self, value: u8)
        ensures { self.new ≡ record self.old { unit = with_register self.old.unit EIFR value } }
    {
        self.intf0 = self.intf0 & !has_bit(value, 0);
        self.intf1 = self.intf1 & !has_bit(value, 1);
    }

    // Sense 0 requests by the level and keeps no flag.
    fn choose_sense(&mut self, value: u8)
        ensures { self.new ≡ record self.old { unit = with_register self.old.unit EICRA value } }
    {
        self.eicra = value;
        self.intf0 = self.intf0 & (value % 4 != 0);
        self.intf1 = self.intf1 & (value / 4 % 4 != 0);
    }

    // Writes a 1 into a register of which ones act.
    fn write_one(&mut self, register: Register, bit: u8, value: bool)
        requires register { acts_by_ones register ≡ true }
        requires bit { bit < 8 }
        ensures { self.new ≡ record self.old { unit = with_register_bit self.old.unit register bit value } }
    {
        if value {
            self.set_register(register, mask(bit));
        }
    }

    // Whether a change of levels is none to the ports.
    fn is_deaf(&self) -> bool
        ensures { result ≡ is_deaf self.now.unit }
    {
        (self.eicra % 16 == 0)
            & ((self.pcmsk0 == 0)
                & ((self.pcmsk1 == 0)
                    & ((self.pcmsk2 == 0) & (!has_bit(self.eimsk, 0) & !has_bit(self.eimsk, 1)))))
    }

    // The flags INTF after a cycle on these levels.
    fn sense_edges(&mut self, before: &[Level], now: &[Level])
        requires before { length before.now ≡ PORT_PINS }
        requires levels { length now.now ≡ PORT_PINS }
        ensures { self.new ≡ record self.old { unit = edges_sensed self.old.unit before.now now.now } }
    {
        self.intf0 = self.intf0 | is_edge(self.eicra % 4, on(before, 2), on(now, 2));
        self.intf1 = self.intf1 | is_edge(self.eicra / 4 % 4, on(before, 3), on(now, 3));
    }

    // The flags PCIF after a cycle on these levels.
    fn sense_changes(&mut self, before: &[Level], now: &[Level])
        requires before { length before.now ≡ PORT_PINS }
        requires levels { length now.now ≡ PORT_PINS }
        ensures { self.new ≡ record self.old { unit = changes_sensed self.old.unit before.now now.now } }
    {
        self.pcif0 = self.pcif0 | is_change(self.pcmsk0, pinb(before), pinb(now));
        self.pcif1 = self.pcif1 | is_change(self.pcmsk1, pinc(before), pinc(now));
        self.pcif2 = self.pcif2 | is_change(self.pcmsk2, pind(before), pind(now));
    }
}

// Whether a 1 acts in a register and a 0 does nothing.
#[inline]
fn acts_by_ones(register: Register) -> bool
    ensures { result ≡ acts_by_ones register }
{
    match register {
        Register::PINB | Register::PINC | Register::PIND | Register::PCIFR | Register::EIFR => true,
        _ => false,
    }
}

// The pin of bit 0 of a register's port.
#[inline]
fn first_pin(register: Register) -> u8
    ensures value { result ≡ first_pin register }
    ensures few { result ≤ 14 }
{
    match register {
        Register::PINB | Register::DDRB | Register::PORTB => 8,
        Register::PINC | Register::DDRC | Register::PORTC => 14,
        _ => 0,
    }
}

// The least span that has the pin of each 1, where bit 0 has this pin.
#[inline]
fn pins_at(first: u8, bits: u8) -> Span
    requires { first ≤ 14 }
    ensures { result ≡ pins_at first bits }
{
    if bits == 0 {
        Span::none()
    } else {
        Span {
            from: first + bits.trailing_zeros() as u8,
            to: first + (8 - bits.leading_zeros() as u8),
        }
    }
}
