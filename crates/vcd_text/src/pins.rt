//! The pins that variables show, each with what it drove in the last row.
ghost use Rattle.std.specs.Prelude.{◌≡◌, ◌≤◌, List, [], length, map, IfOk, OnOk, Some, true, slice_get};
ghost use Rattle.std.specs.List.{list_all, list_any};
ghost use Rattle.text_model.specs.Wave as wave;
ghost use Rattle.vcd_text.specs.Variables.{source_of, variables_of};
ghost use Rattle.vcd_text.specs.Chains.{sources};
ghost use Rattle.vcd_text.specs.Pins.{has_pin, is_among, AreAmong, drive_as_kept, with_drives, kept_after};

use crate::follow::Scope;
use crate::value::drive_at;
use crate::variable::{Source, Variable};
use sim_base::Drive;
use std::alloc::{AllocError, Global};

fn has_pin(pins: &[(u16, Drive)], pin: u16) -> bool
    ensures { result ≡ has_pin pins.now pin }
{
    pins.iter().any(|kept| kept.0 == pin)
}

/// Adds a pin that is not there yet.
fn add(pin: u16, pins: &mut Vec<(u16, Drive)>) -> Result<(), AllocError>
    ensures own { OnOk result (has_pin pins.new.items pin ≡ true) }
    ensures others { OnOk result ((s : wave.Source) → is_among pins.old.items s ≡ true → is_among pins.new.items s ≡ true) }
    ensures kept { OnOk result (drive_as_kept [] pins.old.items ≡ true → drive_as_kept [] pins.new.items ≡ true) }
{
    if has_pin(pins, pin) {
        return Ok(());
    }
    pins.push((pin, Drive::Z))?;
    Ok(())
}

/// Adds the pin that a variable shows.
fn add_shown(shows: Source, pins: &mut Vec<(u16, Drive)>) -> Result<(), AllocError>
    ensures own { OnOk result (is_among pins.new.items (source_of shows) ≡ true) }
    ensures others { OnOk result ((s : wave.Source) → is_among pins.old.items s ≡ true → is_among pins.new.items s ≡ true) }
    ensures kept { OnOk result (drive_as_kept [] pins.old.items ≡ true → drive_as_kept [] pins.new.items ≡ true) }
{
    match shows {
        Source::Net(_) => Ok(()),
        Source::Strong(pin) | Source::Weak(pin) => add(pin, pins),
    }
}

/// The pins that variables show, each as one that drives nothing.
pub(crate) fn pins_of(
    alloc: Global,
    variables: &[Variable],
) -> Result<Vec<(u16, Drive)>, AllocError>
    ensures among { IfOk result (λ v. AreAmong v.items (sources (variables_of variables.now))) }
    ensures kept { IfOk result (λ v. drive_as_kept [] v.items ≡ true) }
{
    let mut pins = Vec::new(alloc);
    for i in 0..variables.len() {
        add_shown(variables[i].shows, &mut pins)?;
    }
    Ok(pins)
}

/// Whether each pin drives what is kept of it.
pub(crate) fn drive_as_kept(drives: &[Drive], pins: &[(u16, Drive)]) -> bool
    ensures { result ≡ drive_as_kept drives.now pins.now }
{
    pins.iter().all(|kept| drive_at(drives, kept.0) == kept.1)
}

fn keep_all(drives: &[Drive], pins: &mut [(u16, Drive)])
    ensures { pins.new ≡ with_drives drives.now pins.old }
{
    for i in 0..pins.len() {
        pins[i].1 = drive_at(drives, pins[i].0);
    }
}

/// Keeps what each pin drives, where it may be another drive than what is kept.
pub(crate) fn keep(scope: Scope, drives: &[Drive], pins: &mut [(u16, Drive)])
    ensures { pins.new ≡ kept_after scope drives.now pins.old }
{
    match scope {
        Scope::All | Scope::NetsAndPins(_, _) => keep_all(drives, pins),
        Scope::Nets(_, _) => {}
    }
}
