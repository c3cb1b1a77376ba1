//! Instructions ("Instructions" of the core specification).
use crate::labels::Labels;
use crate::operators::{BinaryOp, LoadOp, StoreOp, UnaryOp};
use crate::types::ValType;

/// The alignment, as a power of two, and the offset of an access to memory.
#[derive(Clone, Copy)]
pub struct MemArg {
    pub align: u32,
    pub offset: u32,
}

/// An instruction of the table of float types. It is typed and never computed, so loads, stores and operations have their
/// opcode: a name would say no more.
#[derive(Clone, Copy)]
pub enum FloatInstr {
    Load(u8, MemArg),
    Store(u8, MemArg),
    /// A constant, as its bits.
    F32Const(u32),
    F64Const(u64),
    Unary(u8),
    Binary(u8),
    /// A truncation that saturates, by its number behind `FC`.
    Truncate(u8),
}

/// An instruction as a body has it, one for each opcode with its immediates. `opcodes` has the names of opcodes, and the types.
#[derive(Drop)]
pub enum Instr {
    Unreachable,
    Nop,
    Block(Option<ValType>),
    Loop(Option<ValType>),
    If(Option<ValType>),
    Else,
    End,
    Br(u32),
    BrIf(u32),
    /// The labels, and the default.
    BrTable(Labels, u32),
    Return,
    Call(u32),
    CallIndirect(u32),
    Drop,
    Select,
    LocalGet(u32),
    LocalSet(u32),
    LocalTee(u32),
    GlobalGet(u32),
    GlobalSet(u32),
    Load(LoadOp, MemArg),
    Store(StoreOp, MemArg),
    MemorySize,
    MemoryGrow,
    MemoryCopy,
    MemoryFill,
    I32Const(u32),
    I64Const(u64),
    /// An operation on one integer.
    Unary(UnaryOp),
    /// An operation on two integers.
    Binary(BinaryOp),
    Float(FloatInstr),
}
