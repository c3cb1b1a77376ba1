//! A module that runs, and what its functions answer.
ghost use Rattle.std.specs.Prelude.{◌≡◌, [], IfSome, Some, true, map, slice_get};
ghost use Rattle.wasm_code.specs.declared.types.FuncType.{FuncType};
ghost use Rattle.wasm_semantics.specs.Values.{HasTypes};
ghost use Rattle.wasm_validate.specs.Rules.{functions_of, imported_functions, imported_globals, imported_tables, type_of};
ghost use Rattle.rows_calls.specs.Desk.{imports_of};

use crate::answer::{Answer, answer_of};
use crate::ask::Ask;
use crate::desk::Desk;
use crate::imports::{desk_imports, is_plain};
use crate::signatures::{fits, signatures};
use sim_base::List;
use std::alloc::Global;
use std::mem::drop;
use wasm_decode::{FuncType, Module, decode};
use wasm_exec::Instance;
use wasm_num::Value;
use wasm_validate::{Valid, validate};

/// An instance, the types of its functions, and the host that it imports from.
#[derive(Drop)]
pub struct Subject {
    instance: Instance,
    types: List<FuncType>,
    desk: Desk,
    ghost known: { map (λ t. Some t) types ≡ map (slice_get instance.wasm.types) (functions_of instance.wasm) },
    ghost hosted: { map (λ t. Some t) (imports_of desk.is_imported) ≡ map (slice_get instance.wasm.types) (imported_functions instance.wasm.imports) },
}

/// A new instance of the module that the bytes are, where there is one.
pub fn subject_of(alloc: Global, bytes: &[u8]) -> Option<Subject> {
    if bytes.len() > 1_048_576 {
        return None;
    }
    match decode(alloc, bytes) {
        Ok(module) => match validate(alloc, module) {
            Ok(valid) => made(alloc, valid),
            Err(_) => None,
        },
        Err(_) => None,
    }
}

fn made(alloc: Global, valid: Valid) -> Option<Subject> {
    match surroundings(alloc, valid.module()) {
        Some((types, desk)) => instantiated(alloc, valid, types, desk),
        None => {
            // One call, where a drop at the end of the scope is proved list by list.
            drop(valid);
            None
        }
    }
}

/// The types of the functions of a module, and its host, where the rows have one for what it imports.
fn surroundings(alloc: Global, module: &Module) -> Option<(List<FuncType>, Desk)>
    ensures tables { IfSome result (λ s. imported_tables module.now.imports ≡ []) }
    ensures globals { IfSome result (λ s. imported_globals module.now.imports ≡ []) }
    ensures known { IfSome result (λ s. map (λ t. Some t) s.0 ≡ map (slice_get module.now.types) (functions_of module.now)) }
    ensures hosted { IfSome result (λ s. map (λ t. Some t) (imports_of s.1.is_imported) ≡ map (slice_get module.now.types) (imported_functions module.now.imports)) }
{
    if !is_plain(module.imports.as_slice()) {
        return None;
    }
    let desk = Desk::new(desk_imports(module)?);
    match signatures(alloc, module) {
        Ok(types) => Some((types, desk)),
        Err(_) => None,
    }
}

fn instantiated(alloc: Global, valid: Valid, types: List<FuncType>, desk: Desk) -> Option<Subject>
    requires tables { imported_tables valid.wasm.imports ≡ [] }
    requires globals { imported_globals valid.wasm.imports ≡ [] }
    requires known { map (λ t. Some t) types ≡ map (slice_get valid.wasm.types) (functions_of valid.wasm) }
    requires hosted { map (λ t. Some t) (imports_of desk.is_imported) ≡ map (slice_get valid.wasm.types) (imported_functions valid.wasm.imports) }
{
    match Instance::new(alloc, valid) {
        Ok(instance) => Some(Subject {
            instance,
            types,
            desk,
        }),
        Err(_) => None,
    }
}

impl Subject {
    pub fn answer(&mut self, ask: &Ask) -> Answer {
        match ask {
            Ask::Call(function, args, budget) => self.call(*function, args, *budget),
            Ask::Slot(slot, args, gives, budget) => self.call_slot(*slot, args, *gives, *budget),
            Ask::Byte(address) => self.byte(*address),
            Ask::StoreByte(address, byte) => self.store_byte(*address, *byte),
            Ask::Pages => Answer::Pages(self.instance.memory().size()),
            Ask::Operation(..) | Ask::Unknown => Answer::Unfit,
        }
    }

    /// Whether these are arguments of the function.
    fn fits(&self, function: u32, args: &[Value]) -> bool
        ensures { result ≡ true → (t : FuncType) × (type_of self.now.instance.wasm function ≡ Some t) × HasTypes args.now t.params }
    {
        match self.types.get(function as usize) {
            Some(kind) => fits(args, kind.params.as_slice()),
            None => false,
        }
    }

    fn call(&mut self, function: u32, args: &[Value], budget: u32) -> Answer {
        if !self.fits(function, args) {
            return Answer::Unfit;
        }
        let end = self.instance.invoke(function, args, &mut self.desk, budget);
        answer_of(end)
    }

    fn call_slot(&mut self, slot: u32, args: &[Value], gives: bool, budget: u32) -> Answer {
        answer_of(
            self.instance
                .invoke_slot(slot, args, gives, &mut self.desk, budget),
        )
    }

    fn byte(&self, address: u32) -> Answer {
        match self.instance.memory().as_slice().get(address as usize) {
            Some(byte) => Answer::Byte(*byte),
            None => Answer::Unfit,
        }
    }

    fn store_byte(&mut self, address: u32, byte: u8) -> Answer {
        if address as usize >= self.instance.memory().as_slice().len() {
            return Answer::Unfit;
        }
        self.instance.store_byte(address, byte);
        Answer::Nothing
    }
}
