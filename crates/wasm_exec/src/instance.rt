//! Instances.
ghost use Rattle.std.specs.Prelude.{◌≡◌, ◌<◌, ℕ, [], IfOk, Some, map, length, slice_get, slice_set};
ghost use Rattle.wasm_code.specs.declared.types.FuncType.{FuncType};
ghost use Rattle.wasm_semantics.specs.Eval.{Program, call as calls};
ghost use Rattle.wasm_semantics.specs.Values.{HasTypes};
ghost use Rattle.wasm_validate.specs.Rules.{imported_functions, imported_tables, imported_globals, type_of};
ghost use Rattle.wasm_exec.specs.Programs.{IsProgram, memory_at_first, first_globals};
ghost use Rattle.wasm_exec.specs.Instances.{EndsAs, GivesTypes, state_of};
ghost use Rattle.wasm_exec.specs.Slots.{slot_call, slot_type};

use crate::calling;
use crate::parts::{Parts, parts_of};
use sim_base::OutOfMemory;
use std::alloc::Global;
use std::marker::Model;
use std::mem::drop;
use wasm_num::{Memory, Trap, Value};
use wasm_semantics::Host;
use wasm_validate::Valid;

/// A module that runs, with its memory, its globals and its table.
#[derive(Drop)]
pub struct Instance {
    valid: Valid,
    parts: Parts,
}

impl Model for Instance {
    ghost use Rattle.std.specs.Prelude.{◌≡◌};
    ghost use Rattle.wasm_validate.specs.Rules.{functions_of};
    ghost use Rattle.wasm_exec.specs.Instances.{Running};
    ghost use Rattle.wasm_exec.specs.Ready.{IsReady, running};

    ghost Value = { Running };

    ghost view = { λ a. running a.valid.wasm a.parts.store };

    ghost invariant = { λ a. IsReady a.valid.wasm a.parts.compiled a.parts.room a.parts.store a.parts.slots.items × (a.parts.numbers ≡ functions_of a.valid.wasm) };
}

impl Instance {
    /// An instance of a module that imports no table and no global, with all the memory that its calls use.
    /// It answers out of memory, too, at what `decode` never gives: another count of bodies than of functions, an
    /// imported function of more than 16 parameters, a body of more than 2^30 locals; and at a body of more than 2^30
    /// instructions, which takes a module of more bytes.
    pub fn new(alloc: Global, valid: Valid) -> Result<Instance, OutOfMemory>
        requires tables { imported_tables valid.wasm.imports ≡ [] }
        requires globals { imported_globals valid.wasm.imports ≡ [] }
        ensures wasm { IfOk result (λ instance. instance.wasm ≡ valid.wasm) }
        ensures memory { IfOk result (λ instance. instance.memory ≡ memory_at_first valid.wasm) }
        ensures first { IfOk result (λ instance. instance.globals ≡ first_globals valid.wasm) }
    {
        match parts_of(alloc, valid.module()) {
            Ok(parts) => Ok(Instance { valid, parts }),
            Err(error) => {
                // One call, where a drop at the end of the scope is proved list by list.
                drop(valid);
                Err(error)
            }
        }
    }

    /// Calls a function, which is the first of at most 256 nested calls; each instruction costs one unit of fuel,
    /// and the call itself costs none. Traps: those of evaluation, 1 Unreachable to 9 Budget, and the host's.
    pub fn invoke<H: Host>(
        &mut self,
        f: u32,
        args: &[Value],
        host: &mut H,
        budget: u32,
    ) -> Result<Option<Value>, Trap>
        requires hosts { map (λ t. Some t) (H.imports host.old) ≡ map (slice_get self.old.wasm.types) (imported_functions self.old.wasm.imports) }
        requires typed { (t : FuncType) × (type_of self.old.wasm f ≡ Some t) × HasTypes args.now t.params }
        ensures ends { (p : Program) → IsProgram self.old.wasm p → EndsAs result self.new (H.state host.new) (calls H.answers p 256 f args.now (state_of self.old (H.state host.old) budget)) }
        ensures program { (p : Program) × IsProgram self.old.wasm p }
        ensures typed { (t : FuncType) → type_of self.old.wasm f ≡ Some t → GivesTypes t.results result }
        ensures wasm { self.new.wasm ≡ self.old.wasm }
        ensures imports { H.imports host.new ≡ H.imports host.old }
    {
        calling::invoke(&mut self.parts, self.valid.module(), f, args, host, budget)
    }

    /// Calls an entry of the table as `call_indirect` would: of the arguments' types, with an i32 where it `gives` a
    /// result and with none where it does not. Before the call: 5 TableBounds, 6 NoElement, then 7 TypeMismatch.
    pub fn invoke_slot<H: Host>(
        &mut self,
        slot: u32,
        args: &[Value],
        gives: bool,
        host: &mut H,
        budget: u32,
    ) -> Result<Option<Value>, Trap>
        requires hosts { map (λ t. Some t) (H.imports host.old) ≡ map (slice_get self.old.wasm.types) (imported_functions self.old.wasm.imports) }
        ensures ends { (p : Program) → IsProgram self.old.wasm p → EndsAs result self.new (H.state host.new) (slot_call (calls H.answers p 256) p slot args.now gives (state_of self.old (H.state host.old) budget)) }
        ensures program { (p : Program) × IsProgram self.old.wasm p }
        ensures typed { GivesTypes (slot_type args.now gives).results result }
        ensures wasm { self.new.wasm ≡ self.old.wasm }
        ensures imports { H.imports host.new ≡ H.imports host.old }
    {
        match calling::entered(&self.parts, self.valid.module(), slot, args, gives) {
            Ok(f) => self.invoke(f, args, host, budget),
            Err(trap) => Err(trap),
        }
    }

    /// Its memory. Of a module without one it begins with no page.
    pub fn memory(&self) -> &Memory
        ensures { result.now ≡ self.now.memory }
    {
        &self.parts.store.memory
    }

    /// Changes one byte of the memory.
    pub fn store_byte(&mut self, addr: u32, value: u8)
        requires { addr < length self.old.memory.bytes }
        ensures bytes { self.new.memory.bytes ≡ slice_set self.old.memory.bytes addr value }
        ensures limit { self.new.memory.limit ≡ self.old.memory.limit }
        ensures wasm { self.new.wasm ≡ self.old.wasm }
        ensures globals { self.new.globals ≡ self.old.globals }
    {
        self.parts.store.memory.set_byte(addr as usize, value);
    }
}
