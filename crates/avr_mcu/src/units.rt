//! The units with SRAM and the plain registers: the data bus of the core.
ghost use Rattle.std.specs.Prelude.{◌≡◌, ◌+◌, ◌-◌, ◌<◌, ◌≤◌, ℕ, List, length, true, false, replicate, slice_index, slice_index_or, IfOk, vec_len, if◌then◌else◌, ◌%◌, ◌==◌, ◌&&◌, not, nat_lt};
ghost use Rattle.sim_base.specs.declared.signal.Level.{Level};
ghost use Rattle.sim_base.specs.declared.signal.Level.TheVariants as levels;
ghost use Rattle.avr_unit.specs.Bits.{is_set};
ghost use Rattle.avr_unit.specs.Pad.{driven};
ghost use Rattle.avr_unit.specs.UnitMachine.{steps, IsQuiet, FirstDue};
ghost use Rattle.avr_adc.specs.declared.registers.TheConstants.{ADCSRA, ADSC};
ghost use Rattle.avr_mcu.specs.Devices.{devices, devices_touch, eeprom_cells};
ghost use Rattle.avr_mcu.specs.Units.{reset, pins, request, units_step, units_restarted, above, above_in, with_above, with_asked, plain, plain_of, with_plain, register, after_read, with_register, with_register_bit};
ghost use Rattle.avr_mcu.specs.Touched.{Touched, bare, touched_bus};
ghost use Rattle.avr_mcu.specs.Ready.{Ready, Calm};
ghost use Rattle.avr_mcu.specs.Ask.{after, levels_after, IsFit, left, Tells};
ghost use Rattle.part_law.specs.Spans.{no_pins};
ghost use Rattle.avr_mcu.specs.McuOf.{is_deep};
ghost use Rattle.avr_unit.specs.Reach.{touched_if};
ghost use Rattle.avr_unit.specs.Placed.{SameBut};
ghost use Rattle.avr_unit.specs.Signals.{signalled};

use crate::asking::{Asking, Hear, Next, Read, Taken, Turn, Write, WriteBit, begin, pad_of};
use crate::devices::Devices;
use crate::pins::UNO_PINS;
use avr_adc::{ADCSRA, ADSC};
use avr_core::DataBus;
use avr_omit::{Asked, Omissions};
use avr_unit::{Group, PORT_PINS, Signal, VECTORS, has_bit, with_bit};
use part_law::Span;
use sim_base::{Drive, Level, MOST_CYCLES, OutOfMemory};
use std::alloc::{AllocError, Global};
use std::marker::Model;

/// General purpose I/O registers, which only keep what is written (data sheet, "Register Summary").
const GPIOR0: u8 = 0x3E;

const GPIOR1: u8 = 0x4A;

const GPIOR2: u8 = 0x4B;
/// Sleep mode control, which SLEEP reads.
const SMCR: u8 = 0x53;

/// Where SRAM begins in the data space, and where it has ended.
const SRAM: u16 = 0x0100;

const SRAM_END: u16 = 0x0900;

/// The units, before the step of `cycle`, with the levels of the Uno's pins in the cycle before. The devices may
/// stand at an earlier cycle; `next` is what comes next of them. Cycles before `calm` bring instructions alone.
#[derive(Drop)]
pub(crate) struct Units {
    devices: Devices,
    sram: Vec<u8>,
    gpior0: u8,
    gpior1: u8,
    gpior2: u8,
    smcr: u8,
    ignored: Vec<bool>,
    held: [Level; UNO_PINS],
    cycle: u64,
    next: Next,
    touched: Span,
    calm: u64,
    asked: Omissions,
}

impl Model for Units {
    ghost use Rattle.std.specs.Prelude.{◌≡◌, ◌≤◌, length, vec_len};
    ghost use Rattle.avr_mcu.specs.Devices.{Devices as State};
    ghost use Rattle.avr_mcu.specs.Units.{pins};
    ghost use Rattle.avr_mcu.specs.Touched.{Touched};
    ghost use Rattle.avr_mcu.specs.Ready.{Ready, Calm};
    ghost use Rattle.sim_base.specs.declared.limits.TheConstants.{MOST_CYCLES};
    ghost use Rattle.avr_mcu.specs.declared.pins.TheConstants.{UNO_PINS};

    ghost Value = { Touched State };

    ghost view = { λ u. record { units = record { devices = ⟦<Devices as Group>⟧.state u.devices u.cycle; sram = u.sram.items; gpior0 = u.gpior0; gpior1 = u.gpior1; gpior2 = u.gpior2; smcr = u.smcr; ignored = u.ignored.items; asked = u.asked }; held = u.held; cycle = u.cycle; touched = u.touched } };

    ghost invariant = { λ u. record {
      sram : vec_len u.sram ≡ 2048;
      ignored : vec_len u.ignored ≡ 256;
      held : length u.held ≡ UNO_PINS;
      ready : Ready ⟦<Devices as Group>⟧.machine (⟦<Devices as Group>⟧.state u.devices) (⟦<Devices as Group>⟧.until u.devices) (⟦<Devices as Group>⟧.stands u.devices) (pins u.held) u.cycle u.next.due u.next.request;
      end : u.cycle ≤ MOST_CYCLES;
      calm : Calm u.calm u.next.due u.next.request u.touched;
    } };
}

impl Units {
    /// The units after reset, at cycle 0.
    pub(crate) fn new(alloc: Global) -> Result<Units, OutOfMemory>
        ensures { IfOk result (λ u. u ≡ record { units = reset devices; held = replicate UNO_PINS levels.Z; cycle = 0; touched = no_pins }) }
    {
        let sram = zeros(alloc, 2048)?;
        let ignored = none_of(alloc, 256)?;
        let asked = Omissions::new();
        let (devices, next) = begin();
        Ok(Units {
            devices,
            sram,
            gpior0: 0,
            gpior1: 0,
            gpior2: 0,
            smcr: 0,
            ignored,
            held: [Level::Z; UNO_PINS],
            cycle: 0,
            next,
            touched: Span::none(),
            calm: 0,
            asked,
        })
    }

    /// The drive of an Uno pin, 14 to 19 being A0 to A5.
    pub(crate) fn drive(&self, pin: u8) -> Drive
        requires { pin < PORT_PINS }
        ensures { result ≡ driven (devices.pad self.now.units.devices pin) }
    {
        pad_of(&self.devices, pin).drive()
    }

    /// Whether this address below 0x0100 was written though no register is there.
    pub(crate) fn ignored(&self, addr: u8) -> bool
        ensures { result ≡ slice_index_or self.now.units.ignored addr false }
    {
        self.ignored[addr as usize]
    }

    /// The bytes of SRAM.
    pub(crate) fn sram(&self) -> &[u8]
        ensures { result.now ≡ self.now.units.sram }
    {
        self.sram.as_slice()
    }

    /// A byte of the EEPROM.
    pub(crate) fn eeprom_byte(&self, address: u16) -> u8
        requires { address < 1024 }
        ensures { result ≡ slice_index (eeprom_cells self.now.units.devices) address }
    {
        self.devices.awake.second.unit().cell(address)
    }

    /// For each thing that is left out, the first write that asked for it.
    pub(crate) fn asked(&self) -> &Omissions
        ensures { result.now ≡ self.now.units.asked }
    {
        &self.asked
    }

    /// The first cycle in which a unit has an event, or `MOST_CYCLES`.
    #[inline]
    pub(crate) fn due(&self) -> u64
        ensures { FirstDue devices self.now.units.devices self.now.cycle result }
    {
        self.next.due
    }

    /// The least vector that is enabled and flagged, or `VECTORS`.
    #[inline]
    pub(crate) fn request(&self) -> u8
        ensures { result ≡ request devices self.now.units self.now.held }
    {
        self.next.request
    }

    /// Whether the cycles up to this one bring instructions alone. It may answer no where they do, until `calm_down` looks.
    #[inline(always)]
    pub(crate) fn is_calm(&self, next: u64) -> bool
        ensures before { result ≡ true → (due : ℕ) × (FirstDue devices self.now.units.devices self.now.cycle due) × (next < due) }
        ensures passes { result ≡ true → 26 ≤ request devices self.now.units self.now.held }
        ensures still { result ≡ true → nat_lt self.now.touched.from self.now.touched.to ≡ false }
    {
        next < self.calm
    }

    /// Looks until when cycles bring instructions alone.
    #[inline]
    pub(crate) fn calm_down(&mut self)
        ensures { self.new ≡ self.old }
    {
        self.calm = calm_of(self.next, self.touched);
    }

    /// The pins of which a write since `begin` may have changed what they are asked for.
    #[inline]
    pub(crate) fn touched(&self) -> Span
        ensures { result ≡ self.now.touched }
    {
        self.touched
    }

    /// Begins an instruction.
    #[inline]
    pub(crate) fn begin(&mut self)
        ensures { self.new ≡ record self.old { touched = no_pins } }
    {
        self.touched = Span::none();
    }

    /// Clears what entering a vector clears.
    pub(crate) fn taken(&mut self, vector: u8)
        ensures { self.new ≡ record self.old { units = record (self.old.units) { devices = devices.taken self.old.units.devices vector } } }
    {
        self.calm = 0;
        let held = &self.held[..PORT_PINS];
        ask(
            &mut self.devices,
            &mut self.next,
            self.cycle,
            held,
            held,
            Taken { vector },
        );
    }

    /// What WDR does.
    pub(crate) fn wdr(&mut self)
        ensures { self.new ≡ record self.old { units = record (self.old.units) { devices = devices.power.wdr self.old.units.devices self.old.cycle } } }
    {
        self.give(Signal::Wdr);
    }

    /// Whether SLEEP enters power-down: SMCR has SE and that mode, and no conversion of the ADC is on the way.
    pub(crate) fn is_deep(&mut self) -> bool
        ensures value { result ≡ is_deep devices (bare self.old) }
        ensures state { self.new ≡ self.old }
    {
        let smcr = self.smcr();
        let control = self.register(ADCSRA);
        is_power_down(smcr, control)
    }

    /// SMCR.
    pub(crate) fn smcr(&self) -> u8
        ensures { result ≡ self.now.units.smcr }
    {
        self.smcr
    }

    pub(crate) fn set_smcr(&mut self, value: u8)
        ensures { self.new ≡ record self.old { units = record (self.old.units) { smcr = value } } }
    {
        self.smcr = value;
    }

    /// Entering power-down.
    pub(crate) fn doze(&mut self)
        ensures { self.new ≡ record self.old { units = record (self.old.units) { devices = devices.power.doze self.old.units.devices } } }
    {
        self.give(Signal::Doze);
    }

    // Hands a signal to the devices.
    fn give(&mut self, signal: Signal)
        ensures { self.new ≡ record self.old { units = record (self.old.units) { devices = signalled devices signal self.old.units.devices self.old.cycle } } }
    {
        self.calm = 0;
        let held = &self.held[..PORT_PINS];
        ask(
            &mut self.devices,
            &mut self.next,
            self.cycle,
            held,
            held,
            signal,
        );
    }

    /// What a reset of the watchdog leaves in the cycle behind it.
    #[inline(never)]
    pub(crate) fn restart(&mut self)
        ensures { self.new ≡ record self.old { units = units_restarted devices self.old.units } }
    {
        self.give(Signal::Restart);
        self.gpior0 = 0;
        self.gpior1 = 0;
        self.gpior2 = 0;
        self.smcr = 0;
    }

    /// Entering idle sleep: sets ADSC alone.
    #[inline(never)]
    pub(crate) fn sleep(&mut self)
        ensures { self.new ≡ (touched_bus devices devices_touch).write_bit self.old ADCSRA ADSC true }
    {
        self.write_bit(u16::from(ADCSRA), ADSC, true);
    }

    /// Goes on to a cycle, before which no unit has an event.
    #[inline]
    pub(crate) fn skip(&mut self, to: u64)
        requires forward { self.old.cycle ≤ to }
        requires end { to ≤ MOST_CYCLES }
        requires quiet { IsQuiet devices self.old.units.devices self.old.cycle (to - self.old.cycle) }
        ensures { self.new ≡ record self.old { units = record (self.old.units) { devices = steps devices self.old.units.devices self.old.cycle (to - self.old.cycle) }; cycle = to } }
    {
        self.cycle = to;
    }

    /// One cycle on these levels of the Uno's pins: the byte that leaves, whether it ends in a reset of the watchdog, and
    /// the pins of which it may change what they are asked for.
    pub(crate) fn step(&mut self, levels: &[Level]) -> (Option<u8>, bool, Span)
        requires levels { length levels.now ≡ UNO_PINS }
        requires end { self.old.cycle < MOST_CYCLES }
        ensures byte { result.0 ≡ devices.sends self.old.units.devices self.old.cycle }
        ensures resets { result.1 ≡ devices.power.resets self.old.units.devices self.old.cycle }
        ensures pads { SameBut devices result.2 (devices.step self.old.units.devices self.old.cycle (pins self.old.held) (pins levels.now)) self.old.units.devices }
        ensures state { self.new ≡ record self.old { units = units_step devices self.old.units self.old.cycle self.old.held levels.now; held = levels.now; cycle = self.old.cycle + 1 } }
    {
        self.calm = 0;
        let told = ask(
            &mut self.devices,
            &mut self.next,
            self.cycle,
            &self.held[..PORT_PINS],
            seen(levels),
            Hear,
        );
        self.held.copy_from_slice(levels);
        self.cycle += 1;
        told
    }

    /// The same on the levels that it holds.
    #[inline(always)]
    pub(crate) fn turn(&mut self) -> (Option<u8>, bool, Span)
        requires end { self.old.cycle < MOST_CYCLES }
        ensures byte { result.0 ≡ devices.sends self.old.units.devices self.old.cycle }
        ensures resets { result.1 ≡ devices.power.resets self.old.units.devices self.old.cycle }
        ensures pads { SameBut devices result.2 (devices.step self.old.units.devices self.old.cycle (pins self.old.held) (pins self.old.held)) self.old.units.devices }
        ensures state { self.new ≡ record self.old { units = units_step devices self.old.units self.old.cycle self.old.held self.old.held; cycle = self.old.cycle + 1 } }
    {
        self.calm = 0;
        let held = &self.held[..PORT_PINS];
        let told = ask(
            &mut self.devices,
            &mut self.next,
            self.cycle,
            held,
            held,
            Turn,
        );
        self.cycle += 1;
        told
    }
}

impl DataBus for Units {
    ghost use Rattle.avr_mcu.specs.Devices.{Devices as State};

    ghost State = { Touched State };

    ghost bus = { touched_bus devices devices_touch };

    ghost state = { λ u. u };

    #[inline]
    fn read(&mut self, addr: u16) -> u8 {
        if addr < SRAM {
            self.register(addr as u8)
        } else {
            self.above(addr)
        }
    }

    #[inline]
    fn write(&mut self, addr: u16, value: u8) {
        if addr < SRAM {
            self.set_register(addr as u8, value);
            self.note(addr as u8, value);
        } else {
            self.set_above(addr, value);
        }
    }

    fn write_bit(&mut self, addr: u16, bit: u8, value: bool) {
        if addr < SRAM {
            self.set_register_bit(addr as u8, bit, value);
        } else {
            let byte = with_bit(self.read(addr), bit, value);
            self.write(addr, byte);
        }
    }
}

impl Units {
    // What an address from SRAM on reads.
    #[inline]
    fn above(&self, addr: u16) -> u8
        requires { 0x0100 ≤ addr }
        ensures { result ≡ above self.now.units addr }
    {
        sram_byte(&self.sram, addr)
    }

    #[inline]
    fn set_above(&mut self, addr: u16, value: u8)
        requires { 0x0100 ≤ addr }
        ensures { self.new ≡ record self.old { units = with_above self.old.units addr value } }
    {
        if addr < SRAM_END {
            self.sram[(addr - SRAM) as usize] = value;
        }
    }

    // What a register reads.
    fn register(&mut self, reg: u8) -> u8
        ensures value { result ≡ register devices self.old.units self.old.cycle self.old.held reg }
        ensures state { self.new ≡ record self.old { units = after_read devices self.old.units self.old.cycle reg } }
    {
        let held = &self.held[..PORT_PINS];
        let told = ask(
            &mut self.devices,
            &mut self.next,
            self.cycle,
            held,
            held,
            Read { reg },
        );
        self.calm = calm_of(self.next, self.touched);
        match told {
            Some(value) => value,
            None => self.plain(reg),
        }
    }

    fn plain(&self, reg: u8) -> u8
        ensures { result ≡ plain devices self.now.units reg }
    {
        plain_of(reg, self.gpior0, self.gpior1, self.gpior2, self.smcr)
    }

    // Writes a register, or notes that there is none.
    fn set_register(&mut self, reg: u8, value: u8)
        ensures { self.new ≡ record self.old { units = with_register devices self.old.units self.old.cycle reg value; touched = touched_if (devices.has reg) (devices_touch.writes self.old.units.devices reg value) self.old.touched } }
    {
        let held = &self.held[..PORT_PINS];
        let told = ask(
            &mut self.devices,
            &mut self.next,
            self.cycle,
            held,
            held,
            Write {
                reg,
                value,
                touched: self.touched,
            },
        );
        match told {
            Some(touched) => {
                self.touched = touched;
                self.calm = calm_of(self.next, self.touched);
            }
            None => {
                self.calm = calm_of(self.next, self.touched);
                self.set_plain(reg, value);
            }
        }
    }

    // Notes a write, where it asks for something that is left out.
    #[inline]
    fn note(&mut self, reg: u8, value: u8)
        ensures { self.new ≡ record self.old { units = with_asked self.old.units self.old.cycle reg value } }
    {
        self.asked.note(Asked {
            cycle: self.cycle,
            address: reg,
            value,
        });
    }

    fn set_plain(&mut self, reg: u8, value: u8)
        ensures { self.new ≡ record self.old { units = with_plain devices self.old.units reg value } }
    {
        if reg == GPIOR0 {
            self.gpior0 = value;
        } else if reg == GPIOR1 {
            self.gpior1 = value;
        } else if reg == GPIOR2 {
            self.gpior2 = value;
        } else if reg == SMCR {
            self.smcr = value;
        } else {
            self.ignored[reg as usize] = true;
        }
    }

    // Writes one bit of a register alone.
    fn set_register_bit(&mut self, reg: u8, bit: u8, value: bool)
        requires { bit < 8 }
        ensures { self.new ≡ record self.old { units = with_register_bit devices self.old.units self.old.cycle reg bit value; touched = touched_if (devices.has reg) (devices_touch.bits self.old.units.devices reg bit value) self.old.touched } }
    {
        let held = &self.held[..PORT_PINS];
        let told = ask(
            &mut self.devices,
            &mut self.next,
            self.cycle,
            held,
            held,
            WriteBit {
                reg,
                bit,
                value,
                touched: self.touched,
            },
        );
        match told {
            Some(touched) => {
                self.touched = touched;
                self.calm = calm_of(self.next, self.touched);
            }
            None => {
                self.calm = calm_of(self.next, self.touched);
                let byte = with_bit(self.plain(reg), bit, value);
                self.set_plain(reg, byte);
            }
        }
    }
}

// A call on the devices. Each function that names their type to a generic one proves anew that each of them is a unit, so this one
// does it for all calls.
#[inline(always)]
fn ask<A: Asking>(
    group: &mut Devices,
    next: &mut Next,
    cycle: u64,
    before: &[Level],
    now: &[Level],
    asking: A,
) -> A::Answer
    requires fit { IsFit (A.ask asking) cycle }
    requires before { length before.now ≡ PORT_PINS }
    requires levels { length now.now ≡ PORT_PINS }
    requires ready { Ready devices (⟦<Devices as Group>⟧.state group.old) (⟦<Devices as Group>⟧.until group.old) (⟦<Devices as Group>⟧.stands group.old) before.now cycle next.old.due next.old.request }
    ensures told { Tells devices devices_touch (A.ask asking) (⟦<Devices as Group>⟧.state group.old cycle) cycle before.now now.now (A.told result) }
    ensures state { ⟦<Devices as Group>⟧.state group.new (after (A.ask asking) cycle) ≡ left devices (A.ask asking) (⟦<Devices as Group>⟧.state group.old cycle) cycle before.now now.now }
    ensures ready { Ready devices (⟦<Devices as Group>⟧.state group.new) (⟦<Devices as Group>⟧.until group.new) (⟦<Devices as Group>⟧.stands group.new) (levels_after (A.ask asking) before.now now.now) (after (A.ask asking) cycle) next.new.due next.new.request }
{
    asking.of(group, next, cycle, before, now)
}

// Before which cycle instructions come alone.
#[inline]
fn calm_of(next: Next, touched: Span) -> u64
    ensures { Calm result next.due next.request touched }
{
    if touched.has_any() {
        0
    } else if next.request < VECTORS {
        0
    } else {
        next.due
    }
}

// Whether SMCR has SE and the mode of power-down, while ADCSRA reads ADSC 0.
fn is_power_down(smcr: u8, control: u8) -> bool
    ensures { result ≡ (smcr % 16 == 5 && not (is_set control ADSC)) }
{
    smcr % 16 == 5 && !has_bit(control, ADSC)
}

// What an address from SRAM on reads.
#[inline]
fn sram_byte(sram: &Vec<u8>, addr: u16) -> u8
    requires length { vec_len sram.now ≡ 2048 }
    requires from { 0x0100 ≤ addr }
    ensures { result ≡ above_in sram.now.items addr }
{
    if addr < SRAM_END {
        sram[(addr - SRAM) as usize]
    } else {
        0
    }
}

// What a register that no device has reads.
#[inline]
fn plain_of(reg: u8, gpior0: u8, gpior1: u8, gpior2: u8, smcr: u8) -> u8
    ensures { result ≡ plain_of reg gpior0 gpior1 gpior2 smcr }
{
    match reg {
        GPIOR0 => gpior0,
        GPIOR1 => gpior1,
        GPIOR2 => gpior2,
        SMCR => smcr,
        _ => 0,
    }
}

// The levels of the pins that units see.
#[inline]
fn seen(levels: &[Level]) -> &[Level]
    requires { length levels.now ≡ UNO_PINS }
    ensures value { result.now ≡ pins levels.now }
    ensures length { length result.now ≡ PORT_PINS }
{
    &levels[..PORT_PINS]
}

fn zeros(alloc: Global, count: usize) -> Result<Vec<u8>, AllocError>
    ensures items { IfOk result (λ v. v.items ≡ replicate count 0) }
    ensures len { IfOk result (λ v. vec_len v ≡ count) }
{
    vec![in alloc; 0; count]
}

fn none_of(alloc: Global, count: usize) -> Result<Vec<bool>, AllocError>
    ensures items { IfOk result (λ v. v.items ≡ replicate count false) }
    ensures len { IfOk result (λ v. vec_len v ≡ count) }
{
    vec![in alloc; false; count]
}
