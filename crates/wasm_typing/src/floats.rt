//! Instructions of the table of float types.
ghost use Rattle.std.specs.Prelude.{◌≡◌, IfOk};
ghost use Rattle.wasm_typing.specs.Checking.{step as step_form};
ghost use Rattle.wasm_typing.specs.Contexts.{context_of};
ghost use Rattle.wasm_typing.specs.Views.{state_of, Follows};

use crate::checker::Checker;
use crate::context::BodyContext;
use crate::steps::is_aligned;
use sim_base::OutOfMemory;
use wasm_code::{
    FloatInstr, Instr, MemArg, ValType, float_binary_row, float_load_row, float_store_row,
    float_unary_row, truncate_row,
};

pub fn float_step(
    checker: &mut Checker,
    context: &BodyContext,
    float: FloatInstr,
) -> Result<bool, OutOfMemory>
    ensures { IfOk result (λ yes. Follows yes (step_form (context_of context.now) (Instr.Float float) (state_of checker.old)) (state_of checker.new)) }
{
    match float {
        FloatInstr::Load(op, at) => load(checker, context, op, at),
        FloatInstr::Store(op, at) => Ok(store(checker, context, op, at)),
        FloatInstr::F32Const(_) => {
            checker.give(ValType::F32)?;
            Ok(true)
        }
        FloatInstr::F64Const(_) => {
            checker.give(ValType::F64)?;
            Ok(true)
        }
        FloatInstr::Unary(op) => unary(checker, context, op),
        FloatInstr::Binary(op) => binary(checker, context, op),
        FloatInstr::Truncate(n) => truncate(checker, context, n),
    }
}

fn load(
    checker: &mut Checker,
    context: &BodyContext,
    op: u8,
    at: MemArg,
) -> Result<bool, OutOfMemory>
    ensures { IfOk result (λ yes. Follows yes (step_form (context_of context.now) (Instr.Float (FloatInstr.Load op at)) (state_of checker.old)) (state_of checker.new)) }
{
    if context.memories == 0 {
        return Ok(false);
    }
    match float_load_row(op) {
        Some((value, width)) => {
            if !is_aligned(at.align, width) {
                return Ok(false);
            }
            checker.one_to(ValType::I32, value)
        }
        None => Ok(false),
    }
}

fn store(checker: &mut Checker, context: &BodyContext, op: u8, at: MemArg) -> bool
    ensures { Follows result (step_form (context_of context.now) (Instr.Float (FloatInstr.Store op at)) (state_of checker.old)) (state_of checker.new) }
{
    if context.memories == 0 {
        return false;
    }
    match float_store_row(op) {
        Some((value, width)) => {
            if !is_aligned(at.align, width) {
                return false;
            }
            checker.store(value)
        }
        None => false,
    }
}

fn unary(checker: &mut Checker, context: &BodyContext, op: u8) -> Result<bool, OutOfMemory>
    ensures { IfOk result (λ yes. Follows yes (step_form (context_of context.now) (Instr.Float (FloatInstr.Unary op)) (state_of checker.old)) (state_of checker.new)) }
{
    match float_unary_row(op) {
        Some((one, gives)) => checker.one_to(one, gives),
        None => Ok(false),
    }
}

fn binary(checker: &mut Checker, context: &BodyContext, op: u8) -> Result<bool, OutOfMemory>
    ensures { IfOk result (λ yes. Follows yes (step_form (context_of context.now) (Instr.Float (FloatInstr.Binary op)) (state_of checker.old)) (state_of checker.new)) }
{
    match float_binary_row(op) {
        Some((one, gives)) => checker.two_to(one, gives),
        None => Ok(false),
    }
}

fn truncate(checker: &mut Checker, context: &BodyContext, n: u8) -> Result<bool, OutOfMemory>
    ensures { IfOk result (λ yes. Follows yes (step_form (context_of context.now) (Instr.Float (FloatInstr.Truncate n)) (state_of checker.old)) (state_of checker.new)) }
{
    match truncate_row(n) {
        Some((one, gives)) => checker.one_to(one, gives),
        None => Ok(false),
    }
}
