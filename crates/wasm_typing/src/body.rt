//! A whole body.
ghost use Rattle.std.specs.Prelude.{◌≡◌, MatchOption, IfOk, length, ℕ};
ghost use Rattle.wasm_code.specs.Code.{IsNested};
ghost use Rattle.wasm_typing.specs.Typing.{IsBody, IsShallow, FailsAt, exists as exists_form, all_below};
ghost use Rattle.wasm_typing.specs.Contexts.{context_of};

use crate::checker::Checker;
use crate::context::BodyContext;
use crate::steps::step;
use sim_base::OutOfMemory;
use sim_refusals::numbers::{VALID_INDEX, VALID_LIMIT, VALID_TYPE};
use std::alloc::Global;
use wasm_code::{FloatInstr, Instr};

/// An instruction that fails, and the rule that it breaks.
#[derive(Clone, Copy)]
pub struct Failure {
    pub at: usize,
    pub number: u8,
}

/// None where the body is typed and never has too many operands, else its first instruction that fails.
pub fn failing(
    alloc: Global,
    context: &BodyContext,
    code: &[Instr],
) -> Result<Option<Failure>, OutOfMemory>
    requires { IsNested code.now }
    ensures { IfOk result (λ f. MatchOption f (IsBody (context_of context.now) code.now × IsShallow (context_of context.now) code.now) (λ f. FailsAt (context_of context.now) code.now f.at f.number)) }
{
    let mut checker = Checker::new(alloc, context.returns)?;
    for (i, instr) in code.iter().enumerate() {
        if !exists(context, checker.around.len(), instr) {
            return Ok(Some(Failure {
                at: i,
                number: VALID_INDEX,
            }));
        }
        if !step(&mut checker, alloc, context, instr)? {
            return Ok(Some(Failure {
                at: i,
                number: VALID_TYPE,
            }));
        }
        if !checker.is_within() {
            return Ok(Some(Failure {
                at: i,
                number: VALID_LIMIT,
            }));
        }
    }
    Ok(None)
}

/// Whether the indexes and labels of an instruction exist, under so many labels.
pub fn exists(context: &BodyContext, labels: usize, instr: &Instr) -> bool
    ensures { result ≡ exists_form (context_of context.now) labels instr.now }
{
    match instr {
        Instr::Br(l) => (*l as usize) < labels,
        Instr::BrIf(l) => (*l as usize) < labels,
        Instr::BrTable(ls, default) => (*default as usize) < labels
            && are_below(ls.as_slice(), labels),
        Instr::Call(f) => has_type(context, *f),
        Instr::CallIndirect(t) => context.tables > 0 && (*t as usize) < context.types.len(),
        Instr::LocalGet(x) => (*x as usize) < context.locals.len(),
        Instr::LocalSet(x) => (*x as usize) < context.locals.len(),
        Instr::LocalTee(x) => (*x as usize) < context.locals.len(),
        Instr::GlobalGet(x) => (*x as usize) < context.globals.len(),
        Instr::GlobalSet(x) => (*x as usize) < context.globals.len(),
        Instr::Load(_, _) => context.memories > 0,
        Instr::Store(_, _) => context.memories > 0,
        Instr::MemorySize => context.memories > 0,
        Instr::MemoryGrow => context.memories > 0,
        Instr::MemoryCopy => context.memories > 0,
        Instr::MemoryFill => context.memories > 0,
        Instr::Float(FloatInstr::Load(_, _)) => context.memories > 0,
        Instr::Float(FloatInstr::Store(_, _)) => context.memories > 0,
        _ => true,
    }
}

fn has_type(context: &BodyContext, f: u32) -> bool
    ensures { result ≡ exists_form (context_of context.now) 0 (Instr.Call f) }
{
    match context.functions.get(f as usize) {
        Some(t) => context.types.get(*t as usize).is_some(),
        None => false,
    }
}

pub fn are_below(xs: &[u32], n: usize) -> bool
    ensures { result ≡ all_below n xs.now }
{
    for x in xs {
        if *x as usize >= n {
            return false;
        }
    }
    true
}
