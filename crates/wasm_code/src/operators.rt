//! Operators on integers and accesses to memory, by their names ("Numeric Instructions" and "Memory Instructions" of the
//! core specification).

/// An operator on two integers of one width that never traps.
#[derive(Clone, Copy)]
pub enum Plain {
    Eq,
    Ne,
    LtS,
    LtU,
    GtS,
    GtU,
    LeS,
    LeU,
    GeS,
    GeU,
    Add,
    Sub,
    Mul,
    And,
    Or,
    Xor,
    Shl,
    ShrS,
    ShrU,
    Rotl,
    Rotr,
}

/// An operator on two integers of one width that traps for some of them.
#[derive(Clone, Copy)]
pub enum Division {
    DivS,
    DivU,
    RemS,
    RemU,
}

/// An operator on two integers of one width.
#[derive(Clone, Copy)]
pub enum Binary {
    Plain(Plain),
    Division(Division),
}

/// An operator on an integer of 32 bits.
#[derive(Clone, Copy)]
pub enum Unary32 {
    Eqz,
    Clz,
    Ctz,
    Popcnt,
    /// `i64.extend_i32_s` and `i64.extend_i32_u`.
    ExtendS,
    ExtendU,
    Extend8S,
    Extend16S,
}

/// An operator on an integer of 64 bits.
#[derive(Clone, Copy)]
pub enum Unary64 {
    Eqz,
    Clz,
    Ctz,
    Popcnt,
    /// `i32.wrap_i64`.
    Wrap,
    Extend8S,
    Extend16S,
    Extend32S,
}

/// An operator on one integer, by the type of its operand.
#[derive(Clone, Copy)]
pub enum UnaryOp {
    I32(Unary32),
    I64(Unary64),
}

/// An operator on two integers, by the type of its operands.
#[derive(Clone, Copy)]
pub enum BinaryOp {
    I32(Binary),
    I64(Binary),
}

/// A load from memory.
#[derive(Clone, Copy)]
pub enum LoadOp {
    I32Load,
    I64Load,
    I32Load8S,
    I32Load8U,
    I32Load16S,
    I32Load16U,
    I64Load8S,
    I64Load8U,
    I64Load16S,
    I64Load16U,
    I64Load32S,
    I64Load32U,
}

/// A store to memory.
#[derive(Clone, Copy)]
pub enum StoreOp {
    I32Store,
    I64Store,
    I32Store8,
    I32Store16,
    I64Store8,
    I64Store16,
    I64Store32,
}
