//! Chips of files.
ghost use Rattle.std.specs.Prelude.{◌≡◌, ◌≤◌, ◌<◌, IfOk, Ok, length};
ghost use Rattle.chip_abi.specs.Imports.{imports_of};

use chip_abi::{ImportMap, check_imports};
use chip_host::Chip;
use sim_base::{Fault, List, Name, OutOfMemory, Text};
use std::alloc::Global;
use std::mem::drop;
use wasm_decode::decode;
use wasm_validate::{Valid, validate};

fn push_names(names: &mut List<Option<Name>>, pins: &str) -> Result<(), OutOfMemory> {
    for pin in pins.split(',') {
        names.push(Name::read(pin))?;
    }
    Ok(())
}

/// What each pin of a chip is called.
fn names_of(alloc: Global, pins: &str) -> Result<List<Option<Name>>, OutOfMemory>
    ensures { IfOk result (λ names. length names ≤ 64) }
{
    let mut names = List::new(alloc);
    push_names(&mut names, pins)?;
    if names.len() > 64 {
        return Err(OutOfMemory);
    }
    Ok(names)
}

fn attribute_of(alloc: Global, name: &str, value: &str) -> Result<(Text, Text), OutOfMemory> {
    let name = Text::from_str(alloc, name)?;
    let value = Text::from_str(alloc, value)?;
    Ok((name, value))
}

fn push_attributes(
    alloc: Global,
    attrs: &mut List<(Text, Text)>,
    text: &str,
) -> Result<(), OutOfMemory> {
    for pair in text.split(',') {
        if let Some((name, value)) = pair.split_once('=') {
            let attr = attribute_of(alloc, name, value)?;
            attrs.push(attr)?;
        }
    }
    Ok(())
}

fn attributes_of(alloc: Global, text: &str) -> Result<List<(Text, Text)>, OutOfMemory> {
    let mut attrs = List::new(alloc);
    push_attributes(alloc, &mut attrs, text)?;
    Ok(attrs)
}

/// What each pin and each attribute of a chip is called.
fn settings_of(
    alloc: Global,
    pins: &str,
    attrs: &str,
) -> Result<(List<Option<Name>>, List<(Text, Text)>), OutOfMemory>
    ensures { IfOk result (λ settings. length (settings.0) ≤ 64) }
{
    let names = names_of(alloc, pins)?;
    let attrs = attributes_of(alloc, attrs)?;
    Ok((names, attrs))
}

/// A module of which each import is a call that chips have, and which those are.
fn module_of(alloc: Global, bytes: &[u8]) -> Result<(Valid, ImportMap), Fault>
    requires { length bytes.now < 4294967295 }
    ensures { IfOk result (λ found. imports_of found.0.wasm ≡ Ok found.1) }
{
    let module = decode(alloc, bytes)?;
    let valid = validate(alloc, module)?;
    match check_imports(alloc, &valid) {
        Ok(map) => Ok((valid, map)),
        Err(fault) => {
            drop(valid);
            Err(fault)
        }
    }
}

/// A chip, at cycle 0.
pub(crate) fn chip_of(
    alloc: Global,
    bytes: &[u8],
    pins: &str,
    attrs: &str,
    budget: u32,
) -> Result<Chip, Fault>
    requires { length bytes.now < 4294967295 }
    ensures cycle { IfOk result (λ c. c.cycle ≡ 0) }
    ensures wakes { IfOk result (λ c. c.wakes ≡ 0) }
{
    let (names, attrs) = settings_of(alloc, pins, attrs)?;
    match module_of(alloc, bytes) {
        Ok((valid, map)) => Ok(Chip::new(alloc, valid, map, names, attrs, budget, None)?),
        Err(fault) => {
            drop(names);
            drop(attrs);
            Err(fault)
        }
    }
}
