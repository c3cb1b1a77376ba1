//! The units' part of a cycle, which the watchdog may end in a reset.
ghost use Rattle.std.specs.Prelude.{◌≡◌, ◌+◌, ◌<◌, List, ℕ, false, length, if◌then◌else◌};
ghost use Rattle.part_law.specs.Spans.{all_pins};
ghost use Rattle.avr_mcu.specs.Devices.{devices};
ghost use Rattle.avr_mcu.specs.McuOf.{units_acted, restarted};
ghost use Rattle.avr_mcu.specs.McuState.{state_of};
ghost use Rattle.avr_unit.specs.Placed.{hull, SameBut};

use crate::pins::UNO_PINS;
use crate::units::Units;
use avr_core::Core;
use avr_unit::hull;
use part_law::Span;
use sim_base::{Level, MOST_CYCLES};

/// What the units' part of a cycle leaves beside their state: the byte that leaves, the pins whose drives may have changed,
/// and the cycle in which the next instruction starts.
#[derive(Clone, Copy)]
pub(crate) struct Turned {
    pub(crate) byte: Option<u8>,
    pub(crate) span: Span,
    pub(crate) next: u64,
}

// One cycle of the units on the levels that they hold, behind the core's part, which may have touched some pins.
#[inline]
pub(crate) fn tick(
    core: &mut Core,
    units: &mut Units,
    next: u64,
    cycle: u64,
    touched: Span,
) -> Turned
    requires here { units.old.cycle ≡ cycle }
    requires end { cycle < MOST_CYCLES }
    ensures byte { result.byte ≡ devices.sends units.old.units.devices cycle }
    ensures state { (flash : List ℕ) → state_of flash core.new result.next units.new ≡ units_acted devices (state_of flash core.old next units.old) cycle units.old.held }
    ensures here { units.new.cycle ≡ cycle + 1 }
    ensures pads { (moved : Span) × (result.span ≡ hull touched moved)
        × (SameBut devices moved units.new.units.devices units.old.units.devices) }
{
    if cycle < units.due() {
        units.skip(cycle + 1);
        Turned {
            byte: None,
            span: touched,
            next,
        }
    } else {
        turn(core, units, next, cycle, touched)
    }
}

// The same where a unit has an event.
#[inline(always)]
fn turn(core: &mut Core, units: &mut Units, next: u64, cycle: u64, touched: Span) -> Turned
    requires here { units.old.cycle ≡ cycle }
    requires end { cycle < MOST_CYCLES }
    ensures byte { result.byte ≡ devices.sends units.old.units.devices cycle }
    ensures state { (flash : List ℕ) → state_of flash core.new result.next units.new ≡ units_acted devices (state_of flash core.old next units.old) cycle units.old.held }
    ensures here { units.new.cycle ≡ cycle + 1 }
    ensures pads { (moved : Span) × (result.span ≡ hull touched moved)
        × (SameBut devices moved units.new.units.devices units.old.units.devices) }
{
    let (byte, resets, moved) = units.turn();
    let (next, moved) = restart_if(resets, core, units, next, cycle + 1, moved);
    Turned {
        byte,
        span: hull(touched, moved),
        next,
    }
}

// The same on other levels.
pub(crate) fn hear(
    core: &mut Core,
    units: &mut Units,
    next: u64,
    cycle: u64,
    levels: &[Level],
    touched: Span,
) -> Turned
    requires here { units.old.cycle ≡ cycle }
    requires levels { length levels.now ≡ UNO_PINS }
    requires end { cycle < MOST_CYCLES }
    ensures byte { result.byte ≡ devices.sends units.old.units.devices cycle }
    ensures state { (flash : List ℕ) → state_of flash core.new result.next units.new ≡ units_acted devices (state_of flash core.old next units.old) cycle levels.now }
    ensures here { units.new.cycle ≡ cycle + 1 }
    ensures pads { (moved : Span) × (result.span ≡ hull touched moved)
        × (SameBut devices moved units.new.units.devices units.old.units.devices) }
{
    let (byte, resets, moved) = units.step(levels);
    let (next, moved) = restart_if(resets, core, units, next, cycle + 1, moved);
    Turned {
        byte,
        span: hull(touched, moved),
        next,
    }
}

// Where the step of the cycle before ended in a reset, what that leaves, which may change each drive.
#[inline]
fn restart_if(
    resets: bool,
    core: &mut Core,
    units: &mut Units,
    next: u64,
    cycle: u64,
    moved: Span,
) -> (u64, Span)
    requires here { units.old.cycle ≡ cycle }
    ensures state { (flash : List ℕ) → state_of flash core.new result.0 units.new ≡ (if resets then restarted devices (state_of flash core.old next units.old) cycle else state_of flash core.old next units.old) }
    ensures here { units.new.cycle ≡ cycle }
    ensures stays { resets ≡ false → units.new ≡ units.old }
    ensures moved { result.1 ≡ (if resets then all_pins else moved) }
{
    if resets {
        core.restart();
        units.restart();
        (cycle, Span::all())
    } else {
        (next, moved)
    }
}
