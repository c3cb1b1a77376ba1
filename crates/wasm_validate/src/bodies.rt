//! The bodies of a module.
ghost use Rattle.std.specs.Prelude.{◌≡◌, ◌+◌, ◌++◌, IfOk, OnOk, MatchOption, replicate, option_map, slice_get, length};
ghost use Rattle.wasm_typing.specs.Typing.{FailsAt};
ghost use Rattle.wasm_validate.specs.Validity.{declared, params_of, result_of, type_of_body, context_with, context_at, IsTyped, AllTyped, BodyFails};
ghost use Rattle.wasm_validate.specs.Rules.{capped, imported_functions};
ghost use Rattle.wasm_typing.specs.Contexts.{context_of};

use crate::rules::told;
use crate::space::Space;
use sim_base::{OutOfMemory, Place, Refusal};
use std::alloc::Global;
use wasm_code::{FuncType, ValType};
use wasm_decode::{Body, LocalRun};
use wasm_typing::{BodyContext, Failure, failing};

/// The failing instruction of the first body that has one.
pub fn body_fault(alloc: Global, space: &Space) -> Result<Option<Refusal>, OutOfMemory>
    ensures { IfOk result (λ r. MatchOption r (AllTyped space.now.module.now 0 space.now.module.now.bodies) (λ r. BodyFails space.now.module.now 0 space.now.module.now.bodies r)) }
{
    fault_among(alloc, space, space.module.bodies.as_slice())
}

fn fault_among(
    alloc: Global,
    space: &Space,
    bodies: &[Body],
) -> Result<Option<Refusal>, OutOfMemory>
    ensures { IfOk result (λ r. MatchOption r (AllTyped space.now.module.now 0 bodies.now) (λ r. BodyFails space.now.module.now 0 bodies.now r)) }
{
    for (i, body) in bodies.iter().enumerate() {
        match failure(alloc, space, i, body)? {
            Some(failure) => {
                return Ok(Some(Refusal {
                    number: failure.number,
                    place: Place::Code(function_number(space, i), told(failure.at)),
                }));
            }
            None => {}
        }
    }
    Ok(None)
}

/// The failing instruction of body number i.
fn failure(
    alloc: Global,
    space: &Space,
    i: usize,
    body: &Body,
) -> Result<Option<Failure>, OutOfMemory>
    ensures { IfOk result (λ f. MatchOption f (IsTyped space.now.module.now i body.now) (λ f. FailsAt (context_at space.now.module.now i body.now) body.now.code f.at f.number)) }
{
    let locals = locals(alloc, space, i, body)?;
    let context = body_context(space, &locals, returns(kind_of(space, i)));
    failing(alloc, &context, body.code.as_slice())
}

/// The types of the locals of body number i, its parameters first.
pub fn locals(
    alloc: Global,
    space: &Space,
    i: usize,
    body: &Body,
) -> Result<Vec<ValType>, OutOfMemory>
    ensures { IfOk result (λ v. v.items ≡ params_of (type_of_body space.now.module.now i) ++ declared body.now.locals) }
{
    let mut locals = params(alloc, kind_of(space, i))?;
    add_locals(&mut locals, body.locals.as_slice())?;
    Ok(locals)
}

fn body_context<'a>(
    space: &'a Space,
    locals: &'a [ValType],
    returns: Option<ValType>,
) -> BodyContext<'a>
    ensures { context_of result ≡ context_with space.now.module.now locals.now returns }
{
    BodyContext {
        types: space.module.types.as_slice(),
        functions: &space.functions,
        tables: space.tables.len(),
        memories: space.memories.len(),
        globals: &space.globals,
        locals,
        returns,
    }
}

/// The number of the function whose body is number i, as a refusal tells it.
fn function_number(space: &Space, i: usize) -> u32
    ensures { result ≡ capped (length (imported_functions space.now.module.now.imports) + i) }
{
    let imported = space.functions.len() - space.module.functions.len();
    told(imported.saturating_add(i))
}

fn params(alloc: Global, kind: Option<&FuncType>) -> Result<Vec<ValType>, OutOfMemory>
    ensures { IfOk result (λ v. v.items ≡ params_of (option_map (λ r. r.now) kind.entry)) }
{
    let mut locals = Vec::new(alloc);
    match kind {
        Some(kind) => add_params(&mut locals, kind.params.as_slice())?,
        None => {}
    }
    Ok(locals)
}

fn returns(kind: Option<&FuncType>) -> Option<ValType>
    ensures { result ≡ result_of (option_map (λ r. r.now) kind.entry) }
{
    match kind {
        Some(kind) => first(kind.results.as_slice()),
        None => None,
    }
}

/// The type of the function whose body is number i.
fn kind_of<'s, 'm>(space: &'s Space<'m>, i: usize) -> Option<&'m FuncType>
    ensures { option_map (λ r. r.now) result ≡ type_of_body space.now.module.now i }
{
    match space.module.functions.get(i) {
        Some(t) => space.module.types.get(*t as usize),
        None => None,
    }
}

fn first(types: &[ValType]) -> Option<ValType>
    ensures { result ≡ slice_get types.now 0 }
{
    match types {
        [one, ..] => Some(*one),
        [] => None,
    }
}

fn add_params(locals: &mut Vec<ValType>, params: &[ValType]) -> Result<(), OutOfMemory>
    ensures { OnOk result (locals.new.items ≡ locals.old.items ++ params.now) }
{
    for one in params {
        locals.push(*one)?;
    }
    Ok(())
}

fn add_locals(locals: &mut Vec<ValType>, runs: &[LocalRun]) -> Result<(), OutOfMemory>
    ensures { OnOk result (locals.new.items ≡ locals.old.items ++ declared runs.now) }
{
    for run in runs {
        add_run(locals, run.count, run.value)?;
    }
    Ok(())
}

fn add_run(locals: &mut Vec<ValType>, count: u32, value: ValType) -> Result<(), OutOfMemory>
    ensures { OnOk result (locals.new.items ≡ locals.old.items ++ replicate count value) }
{
    for i in 0..count {
        locals.push(value)?;
    }
    Ok(())
}
