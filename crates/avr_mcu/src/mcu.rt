//! The microcontroller as a part.
ghost use Rattle.std.specs.Prelude.{◌≡◌, ◌+◌, ◌-◌, ◌<◌, ◌≤◌, List, ℕ, true, false, slice_index, slice_index_or, slice_get, Some, None, IfOk, max, if◌then◌else◌, ◌&&◌, not, nat_lt, ◌==◌, length};
ghost use Rattle.avr_isa.specs.declared.instr.Instr.TheVariants.{Wdr, Sleep};
ghost use Rattle.avr_core.specs.AvrStep.{IsProgram, HasHalted, Did, avr_step, flash_word, instr_at};
ghost use Rattle.avr_core.specs.Registers.{sreg_byte};
ghost use Rattle.avr_core.specs.declared.state.Mode.TheVariants.{Run};
ghost use Rattle.avr_mcu.specs.Devices.{devices, eeprom_cells};
ghost use Rattle.avr_mcu.specs.McuOf.{mcu, start, ready, enters, starts, entering, instructed, reset_watchdog, is_deep, dozed, idled, performed, core_acted, units_acted, restarted, uno_drive};
ghost use Rattle.avr_mcu.specs.McuState.{state_of};
ghost use Rattle.avr_mcu.specs.Touched.{Touched, bare, Leads};
ghost use Rattle.avr_mcu.specs.Units.{unit_bus, request};
ghost use Rattle.avr_mcu.specs.declared.pins.TheConstants.{UNO_PINS};
ghost use Rattle.part_law.specs.Machine.{IsFirstDue};
ghost use Rattle.part_law.specs.declared.span.Span.{Span};
ghost use Rattle.part_law.specs.Spans.{all_pins, no_pins};
ghost use Rattle.avr_unit.specs.Placed.{hull, SameBut};

use crate::attended::{instruct, instruct_on};
use crate::follow::follow;
use crate::pins::UNO_PINS;
use crate::turned::{hear, tick};
use crate::units::Units;
use avr_core::{Core, Mode, decode_all};
use avr_isa::Instr;
use avr_omit::Omissions;
use avr_unit::{VECTORS, hull};
use part_law::{Part, Span, Went};
use sim_base::{Drive, Flash, Level, MOST_CYCLES, OutOfMemory, Steps};
use std::alloc::Global;
use std::marker::Model;
use std::sync::ledger::Ledger;

/// The microcontroller, before the step of `cycle`.
#[derive(Drop)]
pub struct Mcu {
    flash: Flash,
    program: Vec<Instr>,
    core: Core,
    next: u64,
    units: Units,
    cycle: u64,
    wakes: u64,
    moved: Span,
}

impl Model for Mcu {
    ghost use Rattle.std.specs.Prelude.{◌≡◌, ◌≤◌};
    ghost use Rattle.avr_core.specs.AvrStep.{IsProgram};
    ghost use Rattle.avr_mcu.specs.Devices.{Devices as State};
    ghost use Rattle.avr_mcu.specs.McuOf.{McuAt};
    ghost use Rattle.sim_base.specs.declared.limits.TheConstants.{MOST_CYCLES};

    ghost Value = { McuAt State };

    ghost view = { λ m. record { mcu = record { flash = m.flash; core = m.core; next = m.next; units = m.units.units; held = m.units.held }; cycle = m.cycle; wakes = m.wakes; moved = m.moved } };

    ghost invariant = { λ m. record {
      same_cycle : m.units.cycle ≡ m.cycle;
      end : m.cycle ≤ MOST_CYCLES;
      program : IsProgram m.flash m.program.items;
    } };
}

impl Mcu {
    /// The microcontroller after reset with this flash, at cycle 0.
    pub fn new(alloc: Global, flash: Flash) -> Result<Mcu, OutOfMemory>
        ensures { IfOk result (λ m. m ≡ record { mcu = start devices flash; cycle = 0; wakes = 0; moved = all_pins }) }
    {
        let program = decode_all(alloc, &flash)?;
        let units = Units::new(alloc)?;
        Ok(Mcu {
            flash,
            program,
            core: Core::new(),
            next: 0,
            units,
            cycle: 0,
            wakes: 0,
            moved: Span::all(),
        })
    }

    /// Whether the core runs, sleeps or has halted, with the word that halted it.
    pub fn mode(&self) -> Mode
        ensures { result ≡ self.now.mcu.core.mode }
    {
        self.core.mode()
    }

    /// The word address of the next instruction; of a halted core, that of the word that halted it.
    pub fn pc(&self) -> u16
        ensures { result ≡ self.now.mcu.core.pc }
    {
        self.core.pc()
    }

    /// A register, R0 to R31.
    pub fn register(&self, i: u8) -> u8
        requires { i < 32 }
        ensures { result ≡ slice_index self.now.mcu.core.regs i }
    {
        self.core.register(i)
    }

    /// The stack pointer.
    pub fn sp(&self) -> u16
        ensures { result ≡ self.now.mcu.core.sp }
    {
        self.core.sp()
    }

    /// SREG as the byte at its data address.
    pub fn sreg(&self) -> u8
        ensures { result ≡ sreg_byte self.now.mcu.core.sreg }
    {
        self.core.sreg()
    }

    /// A byte of the flash.
    pub fn flash_byte(&self, address: u16) -> u8
        requires { address < 32768 }
        ensures { result ≡ slice_index self.now.mcu.flash address }
    {
        self.flash.byte(address)
    }

    /// The bytes of SRAM, from data address 0x0100 on.
    pub fn sram(&self) -> &[u8]
        ensures { result.now ≡ self.now.mcu.units.sram }
    {
        self.units.sram()
    }

    /// A byte of the EEPROM.
    pub fn eeprom_byte(&self, address: u16) -> u8
        requires { address < 1024 }
        ensures { result ≡ slice_index (eeprom_cells self.now.mcu.units.devices) address }
    {
        self.units.eeprom_byte(address)
    }

    /// Whether the core begins an instruction in its cycle, and enters no interrupt.
    pub fn begins(&self) -> bool
        ensures { result ≡ (starts devices self.now.mcu self.now.cycle && not (enters devices self.now.mcu)) }
    {
        let enters = enters(&self.core, &self.units);
        let starts = starts(self.core.mode(), enters, self.next, self.cycle);
        starts & !enters
    }

    /// The vector that the core enters in its cycle, if it enters an interrupt.
    pub fn entered(&self) -> Option<u8>
        ensures { result ≡ (if starts devices self.now.mcu self.now.cycle && enters devices self.now.mcu then Some (request devices self.now.mcu.units self.now.mcu.held) else None) }
    {
        let enters = enters(&self.core, &self.units);
        let starts = starts(self.core.mode(), enters, self.next, self.cycle);
        vector_if(starts & enters, self.units.request())
    }

    /// Whether this data address was written though no register is there.
    pub fn ignored(&self, addr: u8) -> bool
        ensures { result ≡ slice_index_or self.now.mcu.units.ignored addr false }
    {
        self.units.ignored(addr)
    }

    /// For each thing that is left out, the first write that asked for it.
    pub fn asked(&self) -> &Omissions
        ensures { result.now ≡ self.now.mcu.units.asked }
    {
        self.units.asked()
    }

    // What the core does in the cycle; the units step after it.
    #[inline]
    fn act(&mut self)
        requires { self.old.cycle < MOST_CYCLES }
        ensures acted { self.new.mcu ≡ core_acted devices self.old.mcu self.old.cycle }
        ensures cycle { self.new.cycle ≡ self.old.cycle }
        ensures wakes { self.new.wakes ≡ self.old.wakes }
        ensures pads { SameBut devices self.new.moved self.new.mcu.units.devices self.old.mcu.units.devices }
    {
        let (next, touched) = act_core(
            &mut self.core,
            &self.program,
            &self.flash,
            &mut self.units,
            self.next,
            self.cycle,
        );
        self.next = next;
        self.moved = touched;
    }
}

impl Part for Mcu {
    ghost use Rattle.std.specs.Prelude.{nat_lt};
    ghost use Rattle.part_law.specs.Spans.{is_in};
    ghost use Rattle.avr_mcu.specs.Devices.{Devices as Units, devices, devices_laws};
    ghost use Rattle.avr_mcu.specs.McuOf.{Mcu as State, mcu};
    ghost use Rattle.avr_mcu.specs.McuLawsOf.{mcu_laws};

    ghost State = { State Units };

    ghost machine = { mcu devices };

    ghost state = { λ m. m.mcu };

    ghost now = { λ m. m.cycle };

    ghost wakes = { λ m. m.wakes };

    ghost changes = { λ m. nat_lt m.moved.from m.moved.to };

    ghost moves = { λ m p. is_in m.moved p };

    fn pins(&self) -> u8 {
        UNO_PINS as u8
    }

    fn contacts(&self) -> u8 {
        0
    }

    fn drive(&self, pin: u8) -> Drive {
        uno_drive(&self.units, pin)
    }

    fn contact(&self, _i: u8) -> bool {
        false
    }

    fn due(&self) -> Option<u64> {
        first_due(&self.core, &self.units, self.next, self.cycle)
    }

    fn woken(&self) -> u64 {
        self.wakes
    }

    #[inline]
    fn changed(&self) -> bool {
        self.moved.has_any()
    }

    #[inline]
    fn moved(&self) -> Span {
        self.moved
    }

    fn settle(&mut self, to: u64) {
        self.units.skip(to);
        self.cycle = to;
    }

    fn wake(&mut self, levels: &[Level], _input: Option<u16>) -> Option<u8> {
        self.act();
        let turned = hear(
            &mut self.core,
            &mut self.units,
            self.next,
            self.cycle,
            levels,
            self.moved,
        );
        self.next = turned.next;
        self.cycle += 1;
        self.wakes += 1;
        self.moved = turned.span;
        turned.byte
    }

    #[inline]
    fn wake_held(&mut self, _input: Option<u16>) -> Option<u8> {
        self.act();
        let turned = tick(
            &mut self.core,
            &mut self.units,
            self.next,
            self.cycle,
            self.moved,
        );
        self.next = turned.next;
        self.cycle += 1;
        self.wakes += 1;
        self.moved = turned.span;
        turned.byte
    }

    fn go_on<L: Ledger>(&mut self, limit: u64, steps: &mut Steps<L>) -> Went {
        let went = follow(
            &mut self.core,
            &self.program,
            &self.flash,
            &mut self.units,
            self.next,
            self.cycle,
            limit,
            steps,
        );
        self.next = went.next;
        self.cycle = went.here;
        self.wakes += went.count;
        self.moved = went.span;
        Went {
            to: went.here,
            changed: went.span.has_any(),
            byte: went.byte,
        }
    }

    ghost laws = { mcu_laws devices devices_laws };
}

// What the core does in a cycle: answers the cycle in which the next instruction starts, and the pins whose drives
// may have changed.
#[inline(always)]
pub(crate) fn act_core(
    core: &mut Core,
    program: &[Instr],
    flash: &Flash,
    units: &mut Units,
    next: u64,
    cycle: u64,
) -> (u64, Span)
    requires program { IsProgram flash.now program.now }
    requires here { units.old.cycle ≡ cycle }
    requires end { cycle < MOST_CYCLES }
    ensures acted { state_of flash.now core.new result.0 units.new ≡ core_acted devices (state_of flash.now core.old next units.old) cycle }
    ensures here { units.new.cycle ≡ cycle }
    ensures pads { SameBut devices result.1 units.new.units.devices units.old.units.devices }
{
    let enters = enters(core, units);
    if starts(core.mode(), enters, next, cycle) {
        let (cycles, touched) = perform(core, program, flash, units, enters);
        (cycle + cycles as u64, touched)
    } else {
        (next, Span::none())
    }
}

// The instruction that starts, of a core that runs and enters no interrupt, where it runs on after it: its cycles, or 0 where
// it is another, which is left.
#[inline(always)]
pub(crate) fn act_next(
    core: &mut Core,
    program: &[Instr],
    flash: &Flash,
    units: &mut Units,
    cycle: u64,
) -> u8
    requires program { IsProgram flash.now program.now }
    requires here { units.old.cycle ≡ cycle }
    requires end { cycle < MOST_CYCLES }
    requires runs { core.old.mode ≡ Run }
    requires passes { enters devices (state_of flash.now core.old cycle units.old) ≡ false }
    ensures acted { (result == 0) ≡ false → state_of flash.now core.new (cycle + result) units.new ≡ core_acted devices (state_of flash.now core.old cycle units.old) cycle }
    ensures here { units.new.cycle ≡ cycle }
    ensures runs { core.new.mode ≡ Run }
    ensures pads { SameBut devices units.new.touched units.new.units.devices units.old.units.devices }
    ensures left { (result == 0) ≡ true → state_of flash.now core.new cycle units.new ≡ state_of flash.now core.old cycle units.old }
{
    units.begin();
    instruct_on(core, program, flash, units)
}

// Whether the core does something in the cycle.
#[inline]
fn starts(mode: Mode, enters: bool, next: u64, cycle: u64) -> bool
    ensures value { result ≡ (not (nat_lt cycle next) && ready mode enters) }
    ensures late { result ≡ true → next ≤ cycle }
    ensures ready { result ≡ true → ready mode enters ≡ true }
    ensures awake { result ≡ true → ¬ HasHalted mode }
{
    if next <= cycle {
        is_ready(mode, enters)
    } else {
        false
    }
}

fn vector_if(enters: bool, vector: u8) -> Option<u8>
    ensures { result ≡ (if enters then Some vector else None) }
{
    if enters { Some(vector) } else { None }
}

// Whether an interrupt is entered where an instruction would start.
#[inline]
pub(crate) fn enters(core: &Core, units: &Units) -> bool
    ensures { (flash : List ℕ) (next : ℕ) → result ≡ enters devices (state_of flash core.now next units.now) }
{
    core.may_enter() & (units.request() < VECTORS)
}

#[inline]
fn is_ready(mode: Mode, enters: bool) -> bool
    ensures value { result ≡ ready mode enters }
    ensures awake { result ≡ true → ¬ HasHalted mode }
{
    match mode {
        Mode::Run => true,
        Mode::Sleep => enters,
        Mode::Halt(_) => false,
    }
}

// An entry or an instruction: answers its cycles, and the pins whose drives may have changed.
#[inline(always)]
fn perform(
    core: &mut Core,
    program: &[Instr],
    flash: &Flash,
    units: &mut Units,
    enters: bool,
) -> (u8, Span)
    requires program { IsProgram flash.now program.now }
    requires awake { ¬ HasHalted core.old.mode }
    requires enters { enters ≡ true → request devices units.old.units units.old.held < 26 }
    ensures did { record { core = core.new; bus = bare units.new; cycles = result.0 } ≡ performed devices enters flash.now core.old (bare units.old) }
    ensures leads { Leads devices (record units.old { touched = no_pins }) units.new }
    ensures pads { SameBut devices result.1 units.new.units.devices units.old.units.devices }
{
    units.begin();
    let cycles = do_one(core, program, flash, units, enters);
    (cycles, units.touched())
}

#[inline(always)]
fn do_one(core: &mut Core, program: &[Instr], flash: &Flash, units: &mut Units, enters: bool) -> u8
    requires program { IsProgram flash.now program.now }
    requires awake { ¬ HasHalted core.old.mode }
    requires enters { enters ≡ true → request devices units.old.units units.old.held < 26 }
    ensures did { record { core = core.new; bus = bare units.new; cycles = result } ≡ performed devices enters flash.now core.old (bare units.old) }
    ensures leads { Leads devices units.old units.new }
{
    if enters {
        enter(core, units)
    } else {
        instruct(core, program, flash, units)
    }
}

// Enters the least vector that is enabled and flagged.
fn enter(core: &mut Core, units: &mut Units) -> u8
    requires awake { ¬ HasHalted core.old.mode }
    requires vector { request devices units.old.units units.old.held < 26 }
    ensures did { record { core = core.new; bus = bare units.new; cycles = result } ≡ entering devices core.old (bare units.old) }
    ensures leads { Leads devices units.old units.new }
{
    let vector = units.request();
    let cycles = core.enter(units, vector);
    units.taken(vector);
    cycles
}

// The first cycle from `cycle` on in which the microcontroller is due, `MOST_CYCLES` where there is none.
#[inline]
pub(crate) fn next_due(core: &Core, units: &Units, next: u64, cycle: u64) -> u64
    requires here { units.now.cycle ≡ cycle }
    ensures soon { (flash : List ℕ) → result < MOST_CYCLES → IsFirstDue (mcu devices) (state_of flash core.now next units.now) cycle (Some result) }
    ensures never { (flash : List ℕ) → MOST_CYCLES ≤ result → IsFirstDue (mcu devices) (state_of flash core.now next units.now) cycle None }
{
    if cycle == 0 {
        return 0;
    }
    let starts = next_start(is_ready(core.mode(), enters(core, units)), next, cycle);
    starts.min(units.due())
}

// The same, None where there is none.
fn first_due(core: &Core, units: &Units, next: u64, cycle: u64) -> Option<u64>
    requires here { units.now.cycle ≡ cycle }
    ensures { (flash : List ℕ) → IsFirstDue (mcu devices) (state_of flash core.now next units.now) cycle result }
{
    let due = next_due(core, units, next, cycle);
    if due < MOST_CYCLES { Some(due) } else { None }
}

// The cycle in which the core next does something, `MOST_CYCLES` where it does nothing any more.
#[inline]
fn next_start(ready: bool, next: u64, cycle: u64) -> u64
    ensures { result ≡ (if ready then max next cycle else MOST_CYCLES) }
{
    if ready {
        if next < cycle { cycle } else { next }
    } else {
        MOST_CYCLES
    }
}

// The drive of a pin of the Uno.
fn uno_drive(units: &Units, pin: u8) -> Drive
    requires { pin < UNO_PINS }
    ensures { result ≡ uno_drive devices units.now.units.devices pin }
{
    match pin {
        0..=19 => units.drive(pin),
        22..=24 => Drive::Low,
        25..=29 => Drive::High,
        _ => Drive::Z,
    }
}
