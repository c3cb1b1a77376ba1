//! The value of a variable as a character: `0`, `1`, `x` or `z`.
ghost use Rattle.std.specs.Prelude.{◌≡◌, Bool, List, length, map, slice_get};
ghost use Rattle.std.specs.Option.{option_map_or};
ghost use Rattle.sim_base.specs.Signal.{is_weak, strong_of, value_of};
ghost use Rattle.text_model.specs.Wave.{bit_value, char_z, level_value, strong_value, weak_value, shown_value};
ghost use Rattle.vcd_text.specs.Variables.{source_of, variable_of};
ghost use Rattle.vcd_text.specs.Pins.{drive_at};

use crate::row::Row;
use crate::variable::{Source, Variable};
use sim_base::{Drive, Level, reads_one};

fn bit(value: bool) -> u8
    ensures { result ≡ bit_value value }
{
    if value { b'1' } else { b'0' }
}

fn of_level(level: Level) -> u8
    ensures { result ≡ level_value level }
{
    match level {
        Level::Low => b'0',
        Level::High => b'1',
        Level::X => b'x',
        Level::Z => b'z',
        Level::Wiped(position) => bit(position >= 512),
    }
}

fn of_strong(drive: Drive) -> u8
    ensures { result ≡ strong_value drive }
{
    match drive {
        Drive::Low => b'0',
        Drive::High => b'1',
        Drive::Z | Drive::PullLow | Drive::PullHigh | Drive::Wiper(_) => b'z',
    }
}

fn of_weak(drive: Drive) -> u8
    ensures { result ≡ weak_value drive }
{
    match drive {
        Drive::PullLow => b'0',
        Drive::PullHigh => b'1',
        Drive::Wiper(position) => bit(position >= 512),
        Drive::Z | Drive::Low | Drive::High => b'z',
    }
}

fn level_at(levels: &[Level], net: u16) -> Option<Level>
    ensures { result ≡ slice_get levels.now net }
{
    levels.get(net as usize).copied()
}

/// What a pin drives.
#[inline]
pub(crate) fn drive_at(drives: &[Drive], pin: u16) -> Drive
    ensures { result ≡ drive_at drives.now pin }
{
    drives.get(pin as usize).copied().unwrap_or(Drive::Z)
}

/// The value of the variables of a net.
pub(crate) fn of_net(net: u16, levels: &[Level]) -> u8
    ensures { result ≡ option_map_or level_value (slice_get levels.now net) char_z }
{
    level_at(levels, net).map_or(b'z', of_level)
}

pub(crate) fn of_source(shows: Source, row: &Row) -> u8
    ensures { result ≡ shown_value row.now.levels.now row.now.drives.now (source_of shows) }
{
    match shows {
        Source::Net(net) => of_net(net, row.levels),
        Source::Strong(pin) => of_strong(drive_at(row.drives, pin)),
        Source::Weak(pin) => of_weak(drive_at(row.drives, pin)),
    }
}

/// The value of a variable that shows this, in a cycle with these levels and drives.
pub fn value_of(shows: Source, levels: &[Level], drives: &[Drive]) -> u8
    ensures { result ≡ shown_value levels.now drives.now (source_of shows) }
{
    of_source(
        shows,
        &Row {
            cycle: 0,
            levels,
            drives,
        },
    )
}

/// Puts the value of each variable at its place.
#[inline(never)]
pub fn fill_values(variables: &[Variable], row: &Row, now: &mut [u8])
    requires { length now.old ≡ length variables.now }
    ensures { now.new ≡ map (λ v. shown_value row.now.levels.now row.now.drives.now v.shows) (map variable_of variables.now) }
{
    for (i, variable) in variables.iter().enumerate() {
        now[i] = of_source(variable.shows, row);
    }
}
