//! Calls into a chip's module.
ghost use Rattle.std.specs.Prelude.{◌≡◌, List, [], true, false, None, Some, IfSome, map, slice_get};
ghost use Rattle.std.specs.Option.{option_to_list};
ghost use Rattle.wasm_validate.specs.Rules.{type_of};
ghost use Rattle.wasm_code.specs.declared.types.FuncType.{FuncType};
ghost use Rattle.wasm_semantics.specs.Values.{HasTypes};
ghost use Rattle.chip_host.specs.Hosts.{AreHosts};
ghost use Rattle.chip_host.specs.Chip.{chip_from, called, replied, value_of, set_up, started, then_set_up};

use crate::death::Death;
use crate::host::ChipHost;
use wasm_exec::Instance;
use wasm_num::Value;
use wasm_validate::Valid;

/// A callback by its place in the table, with the full budget; 0 is none. A trap ends the chip.
pub(crate) fn call_slot(
    instance: &mut Instance,
    host: &mut ChipHost,
    budget: u32,
    slot: u32,
    args: &[Value],
) -> Option<Death>
    requires hosts { AreHosts host.old.moment.given.table instance.old.wasm }
    requires set { host.old.moment.init ≡ false }
    ensures chip { chip_from instance.new host.new budget result ≡ called (chip_from instance.old host.old budget None) host.old.moment.now slot args.now }
    ensures wasm { instance.new.wasm ≡ instance.old.wasm }
    ensures moment { host.new.moment ≡ host.old.moment }
{
    if slot == 0 {
        return None;
    }
    let cycle = host.cycle();
    match instance.invoke_slot(slot, args, false, host, budget) {
        Ok(_) => None,
        Err(trap) => Some(Death { trap, cycle }),
    }
}

/// What a callback gives, where it is an i32.
fn value_of(value: Option<Value>) -> u32
    ensures { result ≡ value_of (option_to_list value) }
{
    match value {
        Some(Value::I32(n)) => n,
        _ => 0,
    }
}

/// A callback that answers, and its answer where it does not trap; 0 is none, and `absent` is answered for it.
pub(crate) fn ask_slot(
    instance: &mut Instance,
    host: &mut ChipHost,
    budget: u32,
    slot: u32,
    args: &[Value],
    absent: u32,
) -> (Option<u32>, Option<Death>)
    requires hosts { AreHosts host.old.moment.given.table instance.old.wasm }
    requires set { host.old.moment.init ≡ false }
    ensures chip { chip_from instance.new host.new budget result.1 ≡ (replied (chip_from instance.old host.old budget None) host.old.moment.now slot args.now absent).0 }
    ensures answer { result.0 ≡ (replied (chip_from instance.old host.old budget None) host.old.moment.now slot args.now absent).1 }
    ensures wasm { instance.new.wasm ≡ instance.old.wasm }
    ensures moment { host.new.moment ≡ host.old.moment }
{
    if slot == 0 {
        return (Some(absent), None);
    }
    let cycle = host.cycle();
    match instance.invoke_slot(slot, args, true, host, budget) {
        Ok(value) => (Some(value_of(value)), None),
        Err(trap) => (None, Some(Death { trap, cycle })),
    }
}

/// A function without parameters, at time 0 while the chip is set up.
fn set_up(instance: &mut Instance, host: &mut ChipHost, budget: u32, f: u32) -> Option<Death>
    requires hosts { AreHosts host.old.moment.given.table instance.old.wasm }
    requires set { host.old.moment.init ≡ true }
    requires zero { host.old.moment.now ≡ 0 }
    requires typed { (t : FuncType) × (type_of instance.old.wasm f ≡ Some t) × HasTypes [] t.params }
    ensures chip { chip_from instance.new host.new budget result ≡ set_up (chip_from instance.old host.old budget None) f }
    ensures wasm { instance.new.wasm ≡ instance.old.wasm }
    ensures moment { host.new.moment ≡ host.old.moment }
{
    match instance.invoke(f, &[], host, budget) {
        Ok(_) => None,
        Err(trap) => Some(Death { trap, cycle: 0 }),
    }
}

/// The start function, where there is one.
fn run_start(
    instance: &mut Instance,
    host: &mut ChipHost,
    budget: u32,
    start: Option<u32>,
) -> Option<Death>
    requires hosts { AreHosts host.old.moment.given.table instance.old.wasm }
    requires set { host.old.moment.init ≡ true }
    requires zero { host.old.moment.now ≡ 0 }
    requires typed { IfSome start (λ f. (t : FuncType) × (type_of instance.old.wasm f ≡ Some t) × HasTypes [] t.params) }
    ensures chip { chip_from instance.new host.new budget result ≡ started start (chip_from instance.old host.old budget None) }
    ensures wasm { instance.new.wasm ≡ instance.old.wasm }
    ensures moment { host.new.moment ≡ host.old.moment }
{
    match start {
        Some(f) => set_up(instance, host, budget, f),
        None => None,
    }
}

/// The start function and then `chipInit`.
pub(crate) fn run_both(
    instance: &mut Instance,
    host: &mut ChipHost,
    budget: u32,
    start: Option<u32>,
    init: u32,
) -> Option<Death>
    requires hosts { AreHosts host.old.moment.given.table instance.old.wasm }
    requires set { host.old.moment.init ≡ true }
    requires zero { host.old.moment.now ≡ 0 }
    requires start { IfSome start (λ f. (t : FuncType) × (type_of instance.old.wasm f ≡ Some t) × HasTypes [] t.params) }
    requires init { (t : FuncType) × (type_of instance.old.wasm init ≡ Some t) × HasTypes [] t.params }
    ensures chip { chip_from instance.new host.new budget result ≡ then_set_up (started start (chip_from instance.old host.old budget None)) init }
    ensures wasm { instance.new.wasm ≡ instance.old.wasm }
    ensures moment { host.new.moment ≡ host.old.moment }
{
    match run_start(instance, host, budget, start) {
        Some(death) => Some(death),
        None => set_up(instance, host, budget, init),
    }
}

pub(crate) fn start_of(valid: &Valid) -> Option<u32>
    ensures value { result ≡ valid.now.wasm.start }
    ensures typed { IfSome result (λ f. (t : FuncType) × (type_of valid.now.wasm f ≡ Some t) × HasTypes [] t.params) }
{
    let _module = valid.module();
    valid.start()
}

pub(crate) fn init_of(valid: &Valid) -> u32
    ensures value { result ≡ valid.now.init }
    ensures typed { (t : FuncType) × (type_of valid.now.wasm result ≡ Some t) × HasTypes [] t.params }
{
    let _module = valid.module();
    valid.chip_init()
}
