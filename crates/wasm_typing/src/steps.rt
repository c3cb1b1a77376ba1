//! One instruction.
ghost use Rattle.std.specs.Prelude.{◌≡◌, ◌≤◌, ◌^◌, nat_le, IfOk};
ghost use Rattle.wasm_typing.specs.Checking.{step as step_form};
ghost use Rattle.wasm_typing.specs.Contexts.{context_of};
ghost use Rattle.wasm_typing.specs.Views.{state_of, Follows};

use crate::checker::Checker;
use crate::context::BodyContext;
use crate::floats::float_step;
use crate::open::Frame;
use sim_base::OutOfMemory;
use std::alloc::Global;
use wasm_code::{
    Instr, LoadOp, MemArg, StoreOp, ValType, binary_row, load_row, store_row, unary_row,
};

/// Goes over an instruction, or answers false where its operands do not fit.
pub fn step(
    checker: &mut Checker,
    alloc: Global,
    context: &BodyContext,
    instr: &Instr,
) -> Result<bool, OutOfMemory>
    ensures { IfOk result (λ yes. Follows yes (step_form (context_of context.now) instr.now (state_of checker.old)) (state_of checker.new)) }
{
    match instr {
        Instr::Unreachable => {
            checker.forget();
            Ok(true)
        }
        Instr::Nop => Ok(true),
        Instr::Block(gives) => {
            checker.open(alloc, Frame::Block, *gives)?;
            Ok(true)
        }
        Instr::Loop(gives) => {
            checker.open(alloc, Frame::Loop, *gives)?;
            Ok(true)
        }
        Instr::If(gives) => checker.open_if(alloc, *gives),
        Instr::Else => checker.part(),
        Instr::End => checker.end(),
        Instr::Br(l) => Ok(checker.branch(*l)),
        Instr::BrIf(l) => checker.branch_if(*l),
        Instr::BrTable(labels, default) => Ok(checker.branch_table(labels.as_slice(), *default)),
        Instr::Return => Ok(checker.leave(context.returns)),
        Instr::Call(f) => call(checker, context, *f),
        Instr::CallIndirect(t) => call_indirect(checker, context, *t),
        Instr::Drop => Ok(checker.drop_one()),
        Instr::Select => checker.select(),
        Instr::LocalGet(x) => local_get(checker, context, *x),
        Instr::LocalSet(x) => Ok(local_set(checker, context, *x)),
        Instr::LocalTee(x) => local_tee(checker, context, *x),
        Instr::GlobalGet(x) => global_get(checker, context, *x),
        Instr::GlobalSet(x) => Ok(global_set(checker, context, *x)),
        Instr::Load(op, at) => load(checker, context, *op, *at),
        Instr::Store(op, at) => Ok(store(checker, context, *op, *at)),
        Instr::MemorySize => memory_size(checker, context),
        Instr::MemoryGrow => memory_grow(checker, context),
        Instr::MemoryCopy | Instr::MemoryFill => Ok(memory_bulk(checker, context)),
        Instr::I32Const(_) => {
            checker.give(ValType::I32)?;
            Ok(true)
        }
        Instr::I64Const(_) => {
            checker.give(ValType::I64)?;
            Ok(true)
        }
        Instr::Unary(op) => {
            let (one, gives) = unary_row(*op);
            checker.one_to(one, gives)
        }
        Instr::Binary(op) => {
            let (one, gives) = binary_row(*op);
            checker.two_to(one, gives)
        }
        Instr::Float(float) => float_step(checker, context, *float),
    }
}

fn call(checker: &mut Checker, context: &BodyContext, f: u32) -> Result<bool, OutOfMemory>
    ensures { IfOk result (λ yes. Follows yes (step_form (context_of context.now) (Instr.Call f) (state_of checker.old)) (state_of checker.new)) }
{
    match context.functions.get(f as usize) {
        Some(t) => match context.types.get(*t as usize) {
            Some(kind) => checker.call(kind),
            None => Ok(false),
        },
        None => Ok(false),
    }
}

fn call_indirect(checker: &mut Checker, context: &BodyContext, t: u32) -> Result<bool, OutOfMemory>
    ensures { IfOk result (λ yes. Follows yes (step_form (context_of context.now) (Instr.CallIndirect t) (state_of checker.old)) (state_of checker.new)) }
{
    if context.tables == 0 {
        return Ok(false);
    }
    match context.types.get(t as usize) {
        Some(kind) => checker.call_indirect(kind),
        None => Ok(false),
    }
}

fn local_get(checker: &mut Checker, context: &BodyContext, x: u32) -> Result<bool, OutOfMemory>
    ensures { IfOk result (λ yes. Follows yes (step_form (context_of context.now) (Instr.LocalGet x) (state_of checker.old)) (state_of checker.new)) }
{
    match context.locals.get(x as usize) {
        Some(t) => {
            checker.give(*t)?;
            Ok(true)
        }
        None => Ok(false),
    }
}

fn local_set(checker: &mut Checker, context: &BodyContext, x: u32) -> bool
    ensures { Follows result (step_form (context_of context.now) (Instr.LocalSet x) (state_of checker.old)) (state_of checker.new) }
{
    match context.locals.get(x as usize) {
        Some(t) => checker.take(*t),
        None => false,
    }
}

fn local_tee(checker: &mut Checker, context: &BodyContext, x: u32) -> Result<bool, OutOfMemory>
    ensures { IfOk result (λ yes. Follows yes (step_form (context_of context.now) (Instr.LocalTee x) (state_of checker.old)) (state_of checker.new)) }
{
    match context.locals.get(x as usize) {
        Some(t) => checker.one_to(*t, *t),
        None => Ok(false),
    }
}

fn global_get(checker: &mut Checker, context: &BodyContext, x: u32) -> Result<bool, OutOfMemory>
    ensures { IfOk result (λ yes. Follows yes (step_form (context_of context.now) (Instr.GlobalGet x) (state_of checker.old)) (state_of checker.new)) }
{
    match context.globals.get(x as usize) {
        Some(g) => {
            checker.give(g.value)?;
            Ok(true)
        }
        None => Ok(false),
    }
}

fn global_set(checker: &mut Checker, context: &BodyContext, x: u32) -> bool
    ensures { Follows result (step_form (context_of context.now) (Instr.GlobalSet x) (state_of checker.old)) (state_of checker.new) }
{
    match context.globals.get(x as usize) {
        Some(g) => {
            if !g.changeable {
                return false;
            }
            checker.take(g.value)
        }
        None => false,
    }
}

/// Whether an access of so many bytes may be aligned so.
pub fn is_aligned(align: u32, width: u32) -> bool
    requires { width ≤ 8 }
    ensures { result ≡ nat_le (2 ^ align) width }
{
    match align {
        0 => 1 <= width,
        1 => 2 <= width,
        2 => 4 <= width,
        3 => 8 <= width,
        _ => false,
    }
}

fn load(
    checker: &mut Checker,
    context: &BodyContext,
    op: LoadOp,
    at: MemArg,
) -> Result<bool, OutOfMemory>
    ensures { IfOk result (λ yes. Follows yes (step_form (context_of context.now) (Instr.Load op at) (state_of checker.old)) (state_of checker.new)) }
{
    if context.memories == 0 {
        return Ok(false);
    }
    let (value, width) = load_row(op);
    if !is_aligned(at.align, width) {
        return Ok(false);
    }
    checker.one_to(ValType::I32, value)
}

fn store(checker: &mut Checker, context: &BodyContext, op: StoreOp, at: MemArg) -> bool
    ensures { Follows result (step_form (context_of context.now) (Instr.Store op at) (state_of checker.old)) (state_of checker.new) }
{
    if context.memories == 0 {
        return false;
    }
    let (value, width) = store_row(op);
    if !is_aligned(at.align, width) {
        return false;
    }
    checker.store(value)
}

fn memory_size(checker: &mut Checker, context: &BodyContext) -> Result<bool, OutOfMemory>
    ensures { IfOk result (λ yes. Follows yes (step_form (context_of context.now) Instr.MemorySize (state_of checker.old)) (state_of checker.new)) }
{
    if context.memories == 0 {
        return Ok(false);
    }
    checker.give(ValType::I32)?;
    Ok(true)
}

fn memory_grow(checker: &mut Checker, context: &BodyContext) -> Result<bool, OutOfMemory>
    ensures { IfOk result (λ yes. Follows yes (step_form (context_of context.now) Instr.MemoryGrow (state_of checker.old)) (state_of checker.new)) }
{
    if context.memories == 0 {
        return Ok(false);
    }
    checker.one_to(ValType::I32, ValType::I32)
}

/// `memory.copy` and `memory.fill`, which have the same operands.
fn memory_bulk(checker: &mut Checker, context: &BodyContext) -> bool
    ensures { Follows result (step_form (context_of context.now) Instr.MemoryCopy (state_of checker.old)) (state_of checker.new) }
{
    if context.memories == 0 {
        return false;
    }
    checker.take_three()
}
