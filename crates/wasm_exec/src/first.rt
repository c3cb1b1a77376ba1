//! The memory and the globals as they are at first.
ghost use Rattle.std.specs.Prelude.{◌≡◌, ◌*◌, IfOk, true, map, length};
ghost use Rattle.wasm_semantics.specs.Values.{HasType, HasTypes};
ghost use Rattle.wasm_interpreter.specs.Machine.{slot};
ghost use Rattle.wasm_interpreter.specs.Loaded.{value_types};
ghost use Rattle.wasm_validate.specs.Rules.{memories_of, is_constant, kinds_of, least_of};
ghost use Rattle.wasm_exec.specs.Programs.{constant, constants, first_memory, with_segments, memory_at_first};
ghost use Rattle.wasm_exec.specs.Whole.{AreConstant, MemoriesFit, SegmentsFit};

use crate::table::offset;
use sim_base::{List, OutOfMemory};
use std::alloc::Global;
use wasm_code::{FloatInstr, Instr, Limits, ValType};
use wasm_decode::{DataSegment, GlobalDef};
use wasm_num::Memory;
use wasm_validate::Space;

/// The slot of an initial value, which is one constant of the type.
fn constant(kind: ValType, code: &[Instr]) -> u64
    requires { is_constant kind code.now ≡ true }
    ensures slot { result ≡ slot (constant code.now) }
    ensures typed { HasType (constant code.now) kind }
{
    match code {
        [Instr::I32Const(n), ..] => u64::from(*n),
        [Instr::I64Const(n), ..] => *n,
        [Instr::Float(FloatInstr::F32Const(n)), ..] => u64::from(*n),
        [Instr::Float(FloatInstr::F64Const(n)), ..] => *n,
        _ => unreachable!(),
    }
}

/// The first values of globals, as slots.
pub fn first_globals(alloc: Global, globals: &[GlobalDef]) -> Result<List<u64>, OutOfMemory>
    requires { AreConstant globals.now }
    ensures slots { IfOk result (λ slots. slots ≡ map slot (constants globals.now)) }
    ensures typed { IfOk result (λ slots. HasTypes (constants globals.now) (value_types (kinds_of globals.now))) }
{
    let mut slots = List::new(alloc);
    for global in globals {
        slots.push(constant(global.kind.value, global.init.as_slice()))?;
    }
    Ok(slots)
}

fn empty_memory(alloc: Global, limits: &[Limits]) -> Result<Memory, OutOfMemory>
    requires { MemoriesFit limits.now }
    ensures { IfOk result (λ memory. memory ≡ first_memory limits.now) }
{
    match limits {
        [] => Memory::new(alloc, 0, Some(0)),
        [first, ..] => Memory::new(alloc, first.least, first.greatest),
    }
}

/// Puts the segments into the memory in their order.
fn put_segments(memory: &mut Memory, segments: &[DataSegment])
    requires { SegmentsFit (length memory.old.bytes) segments.now }
    ensures bytes { memory.new.bytes ≡ with_segments segments.now memory.old.bytes }
    ensures limit { memory.new.limit ≡ memory.old.limit }
{
    for segment in segments {
        let at = offset(segment.offset.as_slice()) as usize;
        memory.fill_from(at, segment.bytes.as_slice());
    }
}

/// The memory of a module as it is at first.
pub fn memory_of(alloc: Global, space: &Space) -> Result<Memory, OutOfMemory>
    requires memories { MemoriesFit (memories_of space.now.module.now) }
    requires segments { SegmentsFit (65536 * least_of (memories_of space.now.module.now)) space.now.module.now.segments }
    ensures { IfOk result (λ memory. memory ≡ memory_at_first space.now.module.now) }
{
    let mut memory = empty_memory(alloc, &space.memories)?;
    put_segments(&mut memory, space.module.segments.as_slice());
    Ok(memory)
}
