//! Instructions.
ghost use Rattle.std.specs.Int.{w32, w64, from_le_bytes};
ghost use Rattle.std.specs.Prelude.{◌≡◌, ◌≤◌, true, reverse, length, Ok, Err, ◌&&◌, ◌==◌, not, nat_le};
ghost use Rattle.wasm_code.specs.Opcodes.{from};
ghost use Rattle.wasm_decode.specs.InstrText.{else_may_come as may_come, is_opcode, is_other, is_access, is_numeric, judge_opcode, is_bare, bare as bare_instr, block_of, block as block_form, is_indexed, index_of, indexed as indexed_form, br_table as br_table_form, call_indirect as call_indirect_form, access_at, float_access, access as access_form, memory_of, reserved as reserved_form, const_32 as const_32_form, const_64 as const_64_form, float_32 as float_32_form, float_64 as float_64_form, shape_of, numeric_of, float_numeric, immediates as immediates_form, instr};
ghost use Rattle.wasm_binary.specs.Reads.{Decodes};

use crate::prefixed::prefixed;
use sim_base::{Fault, List};
use sim_refusals::numbers::{WASM_LIMIT, WASM_OPCODE};
use std::alloc::Global;
use wasm_binary::{Reader, index, judged, list_to, refused, signed, tag, zero};
use wasm_code::{
    BlockType, FloatInstr, Instr, Labels, MemArg, ValType, binary_of, float_binary_row,
    float_load_row, float_store_row, float_unary_row, load_of, store_of, unary_of,
};

/// At most so many labels of a `br_table` beside its default.
const LABELS: u32 = 4096;

/// At most so many blocks open at once.
const NESTING: usize = 256;

/// An instruction where these blocks are open, the innermost last; for each, whether an `else` may come.
pub fn instruction(alloc: Global, reader: &mut Reader, opened: &[bool]) -> Result<Instr, Fault>
    ensures { Decodes (instr (reverse opened.now)) result reader.old reader.new }
{
    let place = reader.at;
    let op = reader.byte()?;
    match judge(opened, op) {
        Ok(op) => immediates(alloc, reader, op),
        Err(number) => Err(refused(number, place)),
    }
}

/// The opcode, or the rule that it breaks.
fn judge(opened: &[bool], op: u8) -> Result<u8, u8>
    ensures { result ≡ judge_opcode (reverse opened.now) op }
{
    if !is_known(op) {
        return Err(WASM_OPCODE);
    }
    if is_crowded(opened, op) {
        return Err(WASM_LIMIT);
    }
    if is_stray_else(opened, op) {
        return Err(WASM_OPCODE);
    }
    Ok(op)
}

/// Whether a block would open in as many others as there may be.
fn is_crowded(opened: &[bool], op: u8) -> bool
    ensures { result ≡ (from 0x02 0x04 op && nat_le 256 (length (reverse opened.now))) }
{
    if opened.len() < NESTING {
        return false;
    }
    matches!(op, 0x02..=0x04)
}

fn is_stray_else(opened: &[bool], op: u8) -> bool
    ensures { result ≡ (op == 0x05 && not (may_come (reverse opened.now))) }
{
    if op != 0x05 {
        return false;
    }
    !else_may_come(opened)
}

fn else_may_come(opened: &[bool]) -> bool
    ensures { result ≡ may_come (reverse opened.now) }
{
    match opened {
        [.., last] => *last,
        [] => false,
    }
}

fn is_known(op: u8) -> bool
    ensures { result ≡ is_opcode op }
{
    is_other(op) || is_access(op) || is_numeric(op)
}

fn is_other(op: u8) -> bool
    ensures { result ≡ is_other op }
{
    matches!(op, 0x00..=0x05 | 0x0B..=0x11 | 0x1A | 0x1B | 0x20..=0x24 | 0x3F..=0x44 | 0xFC)
}

fn is_access(op: u8) -> bool
    ensures { result ≡ is_access op }
{
    load_of(op).is_some()
        || store_of(op).is_some()
        || float_load_row(op).is_some()
        || float_store_row(op).is_some()
}

fn is_numeric(op: u8) -> bool
    ensures { result ≡ is_numeric op }
{
    unary_of(op).is_some()
        || binary_of(op).is_some()
        || float_unary_row(op).is_some()
        || float_binary_row(op).is_some()
}

/// What stands behind an opcode.
#[derive(Clone, Copy)]
pub enum Shape {
    Bare,
    Block,
    Index,
    Table,
    Indirect,
    Access,
    Reserved,
    Const32,
    Const64,
    Float32,
    Float64,
    Prefixed,
    Number,
}

fn classify(op: u8) -> Shape
    ensures { result ≡ shape_of op }
{
    match op {
        0x00 | 0x01 | 0x05 | 0x0B | 0x0F | 0x1A | 0x1B => Shape::Bare,
        0x02..=0x04 => Shape::Block,
        0x0C | 0x0D | 0x10 | 0x20..=0x24 => Shape::Index,
        0x0E => Shape::Table,
        0x11 => Shape::Indirect,
        0x28..=0x3E => Shape::Access,
        0x3F | 0x40 => Shape::Reserved,
        0x41 => Shape::Const32,
        0x42 => Shape::Const64,
        0x43 => Shape::Float32,
        0x44 => Shape::Float64,
        0xFC => Shape::Prefixed,
        _ => Shape::Number,
    }
}

fn immediates(alloc: Global, reader: &mut Reader, op: u8) -> Result<Instr, Fault>
    ensures { Decodes (immediates_form op) result reader.old reader.new }
{
    match classify(op) {
        Shape::Bare => Ok(bare(op)),
        Shape::Block => block(reader, op),
        Shape::Index => indexed(reader, op),
        Shape::Table => br_table(alloc, reader),
        Shape::Indirect => call_indirect(reader),
        Shape::Access => access(reader, op),
        Shape::Reserved => reserved(reader, op),
        Shape::Const32 => const_32(reader),
        Shape::Const64 => const_64(reader),
        Shape::Float32 => float_32(reader),
        Shape::Float64 => float_64(reader),
        Shape::Prefixed => prefixed(reader),
        Shape::Number => Ok(numeric(op)),
    }
}

fn bare(op: u8) -> Instr
    ensures { result ≡ bare_instr op }
{
    match op {
        0x00 => Instr::Unreachable,
        0x01 => Instr::Nop,
        0x05 => Instr::Else,
        0x0B => Instr::End,
        0x0F => Instr::Return,
        0x1A => Instr::Drop,
        _ => Instr::Select,
    }
}

fn block(reader: &mut Reader, op: u8) -> Result<Instr, Fault>
    ensures { Decodes (block_form op) result reader.old reader.new }
{
    let kind = judged::<BlockType>(reader)?;
    Ok(block_instr(op, kind.result))
}

fn block_instr(op: u8, gives: Option<ValType>) -> Instr
    ensures { result ≡ block_of op gives }
{
    match op {
        0x02 => Instr::Block(gives),
        0x03 => Instr::Loop(gives),
        _ => Instr::If(gives),
    }
}

fn indexed(reader: &mut Reader, op: u8) -> Result<Instr, Fault>
    ensures { Decodes (indexed_form op) result reader.old reader.new }
{
    let n = index(reader)?;
    Ok(index_instr(op, n))
}

fn index_instr(op: u8, n: u32) -> Instr
    ensures { result ≡ index_of op n }
{
    match op {
        0x0C => Instr::Br(n),
        0x0D => Instr::BrIf(n),
        0x10 => Instr::Call(n),
        0x20 => Instr::LocalGet(n),
        0x21 => Instr::LocalSet(n),
        0x22 => Instr::LocalTee(n),
        0x23 => Instr::GlobalGet(n),
        _ => Instr::GlobalSet(n),
    }
}

fn br_table(alloc: Global, reader: &mut Reader) -> Result<Instr, Fault>
    ensures { Decodes br_table_form result reader.old reader.new }
{
    let labels = list_to::<u32>(alloc, reader, LABELS)?;
    let default = index(reader)?;
    let labels = Labels::new(alloc, labels)?;
    Ok(Instr::BrTable(labels, default))
}

fn call_indirect(reader: &mut Reader) -> Result<Instr, Fault>
    ensures { Decodes call_indirect_form result reader.old reader.new }
{
    let kind = index(reader)?;
    zero(reader, 32, WASM_OPCODE)?;
    Ok(Instr::CallIndirect(kind))
}

fn access(reader: &mut Reader, op: u8) -> Result<Instr, Fault>
    ensures { Decodes (access_form op) result reader.old reader.new }
{
    let align = index(reader)?;
    let offset = index(reader)?;
    Ok(access_instr(op, MemArg { align, offset }))
}

fn access_instr(op: u8, at: MemArg) -> Instr
    ensures { result ≡ access_at op at }
{
    match load_of(op) {
        Some(load) => Instr::Load(load, at),
        None => match store_of(op) {
            Some(store) => Instr::Store(store, at),
            None => float_access(op, at),
        },
    }
}

fn float_access(op: u8, at: MemArg) -> Instr
    ensures { result ≡ float_access op at }
{
    if float_load_row(op).is_some() {
        Instr::Float(FloatInstr::Load(op, at))
    } else {
        Instr::Float(FloatInstr::Store(op, at))
    }
}

fn reserved(reader: &mut Reader, op: u8) -> Result<Instr, Fault>
    ensures { Decodes (reserved_form op) result reader.old reader.new }
{
    tag(reader, 0x00, WASM_OPCODE)?;
    Ok(memory_instr(op))
}

fn memory_instr(op: u8) -> Instr
    ensures { result ≡ memory_of op }
{
    match op {
        0x3F => Instr::MemorySize,
        _ => Instr::MemoryGrow,
    }
}

fn const_32(reader: &mut Reader) -> Result<Instr, Fault>
    ensures { Decodes const_32_form result reader.old reader.new }
{
    let n = signed(reader, 32)?;
    Ok(Instr::I32Const(n as u32))
}

fn const_64(reader: &mut Reader) -> Result<Instr, Fault>
    ensures { Decodes const_64_form result reader.old reader.new }
{
    let n = signed(reader, 64)?;
    Ok(Instr::I64Const(n))
}

fn numeric(op: u8) -> Instr
    ensures { result ≡ numeric_of op }
{
    match unary_of(op) {
        Some(unary) => Instr::Unary(unary),
        None => match binary_of(op) {
            Some(binary) => Instr::Binary(binary),
            None => float_numeric(op),
        },
    }
}

fn float_numeric(op: u8) -> Instr
    ensures { result ≡ float_numeric op }
{
    if float_unary_row(op).is_some() {
        Instr::Float(FloatInstr::Unary(op))
    } else {
        Instr::Float(FloatInstr::Binary(op))
    }
}

fn float_32(reader: &mut Reader) -> Result<Instr, Fault>
    ensures { Decodes float_32_form result reader.old reader.new }
{
    let bytes = reader.bytes(4)?;
    Ok(Instr::Float(FloatInstr::F32Const(word(bytes))))
}

fn word(bytes: &[u8]) -> u32
    requires { length bytes.now ≡ 4 }
    ensures { result ≡ from_le_bytes w32 bytes.now }
{
    u32::from_le_bytes([bytes[0], bytes[1], bytes[2], bytes[3]])
}

fn float_64(reader: &mut Reader) -> Result<Instr, Fault>
    ensures { Decodes float_64_form result reader.old reader.new }
{
    let bytes = reader.bytes(8)?;
    Ok(Instr::Float(FloatInstr::F64Const(long(bytes))))
}

fn long(bytes: &[u8]) -> u64
    requires { length bytes.now ≡ 8 }
    ensures { result ≡ from_le_bytes w64 bytes.now }
{
    u64::from_le_bytes([
        bytes[0], bytes[1], bytes[2], bytes[3], bytes[4], bytes[5], bytes[6], bytes[7],
    ])
}
