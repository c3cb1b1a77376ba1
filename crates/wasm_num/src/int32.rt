//! Integers of 32 bits ("Integer Operations" of the core specification). An integer is its unsigned value.
ghost use Rattle.std.specs.Prelude.{◌≡◌, ◌<◌, int_div};
ghost use Rattle.std.specs.Int.{w8, w16, w32, cast_signed, cast_unsigned};
ghost use Rattle.wasm_num.specs.Integer.{wrap, extend_s, idiv_u, idiv_s, irem_u, irem_s, ishl, ishr_u, ishr_s, irotl, irotr, ilt_s, igt_s, ile_s, ige_s};
ghost use Rattle.wasm_num.specs.Numeric.{plain, divided, computed};

use crate::trap::Trap;
use wasm_code::{Binary, Division, Plain};

/// The low 32 bits.
#[inline(always)]
pub fn wrap(a: u64) -> u32
    ensures { result ≡ wrap w32 a }
{
    (a % 0x1_0000_0000) as u32
}

/// A byte by its sign.
#[inline(always)]
pub fn extend8_s(a: u8) -> u32
    ensures { result ≡ extend_s w8 w32 a }
{
    i32::from(a.cast_signed()).cast_unsigned()
}

/// Two bytes by their sign.
#[inline(always)]
pub fn extend16_s(a: u16) -> u32
    ensures { result ≡ extend_s w16 w32 a }
{
    i32::from(a.cast_signed()).cast_unsigned()
}

#[inline(always)]
pub fn div_s(a: u32, b: u32) -> Result<u32, Trap>
    ensures { result ≡ idiv_s w32 a b }
{
    if b == 0 {
        return Err(Trap::DivideByZero);
    }
    if a == 0x8000_0000 && b == u32::MAX {
        return Err(Trap::Overflow);
    }
    Ok(quotient_s(a, b))
}

#[inline(always)]
fn quotient_s(a: u32, b: u32) -> u32
    requires { 0 < b }
    ensures { result ≡ cast_unsigned w32 (int_div (cast_signed w32 a) (cast_signed w32 b)) }
{
    a.cast_signed()
        .wrapping_div(b.cast_signed())
        .cast_unsigned()
}

#[inline(always)]
pub fn div_u(a: u32, b: u32) -> Result<u32, Trap>
    ensures { result ≡ idiv_u w32 a b }
{
    if b == 0 {
        return Err(Trap::DivideByZero);
    }
    Ok(a / b)
}

#[inline(always)]
pub fn rem_s(a: u32, b: u32) -> Result<u32, Trap>
    ensures { result ≡ irem_s w32 a b }
{
    if b == 0 {
        return Err(Trap::DivideByZero);
    }
    Ok(
        a.cast_signed()
            .wrapping_rem(b.cast_signed())
            .cast_unsigned(),
    )
}

#[inline(always)]
pub fn rem_u(a: u32, b: u32) -> Result<u32, Trap>
    ensures { result ≡ irem_u w32 a b }
{
    if b == 0 {
        return Err(Trap::DivideByZero);
    }
    Ok(a % b)
}

#[inline(always)]
pub fn shl(a: u32, b: u32) -> u32
    ensures { result ≡ ishl w32 a b }
{
    a << (b % 32)
}

#[inline(always)]
pub fn shr_u(a: u32, b: u32) -> u32
    ensures { result ≡ ishr_u w32 a b }
{
    a >> (b % 32)
}

#[inline(always)]
pub fn shr_s(a: u32, b: u32) -> u32
    ensures { result ≡ ishr_s w32 a b }
{
    (a.cast_signed() >> (b % 32)).cast_unsigned()
}

#[inline(always)]
pub fn rotl(a: u32, b: u32) -> u32
    ensures { result ≡ irotl w32 a b }
{
    a.rotate_left(b)
}

#[inline(always)]
pub fn rotr(a: u32, b: u32) -> u32
    ensures { result ≡ irotr w32 a b }
{
    a.rotate_right(b)
}

#[inline(always)]
pub fn lt_s(a: u32, b: u32) -> bool
    ensures { result ≡ ilt_s w32 a b }
{
    a.cast_signed() < b.cast_signed()
}

#[inline(always)]
pub fn gt_s(a: u32, b: u32) -> bool
    ensures { result ≡ igt_s w32 a b }
{
    a.cast_signed() > b.cast_signed()
}

#[inline(always)]
pub fn le_s(a: u32, b: u32) -> bool
    ensures { result ≡ ile_s w32 a b }
{
    a.cast_signed() <= b.cast_signed()
}

#[inline(always)]
pub fn ge_s(a: u32, b: u32) -> bool
    ensures { result ≡ ige_s w32 a b }
{
    a.cast_signed() >= b.cast_signed()
}

/// An operator that never traps; a comparison gives 1 where it holds, else 0.
#[inline(always)]
pub fn plain(operator: Plain, a: u32, b: u32) -> u32
    ensures { result ≡ plain w32 operator a b }
{
    match operator {
        Plain::Eq => u32::from(a == b),
        Plain::Ne => u32::from(a != b),
        Plain::LtS => u32::from(lt_s(a, b)),
        Plain::LtU => u32::from(a < b),
        Plain::GtS => u32::from(gt_s(a, b)),
        Plain::GtU => u32::from(a > b),
        Plain::LeS => u32::from(le_s(a, b)),
        Plain::LeU => u32::from(a <= b),
        Plain::GeS => u32::from(ge_s(a, b)),
        Plain::GeU => u32::from(a >= b),
        Plain::Add => a.wrapping_add(b),
        Plain::Sub => a.wrapping_sub(b),
        Plain::Mul => a.wrapping_mul(b),
        Plain::And => a & b,
        Plain::Or => a | b,
        Plain::Xor => a ^ b,
        Plain::Shl => shl(a, b),
        Plain::ShrS => shr_s(a, b),
        Plain::ShrU => shr_u(a, b),
        Plain::Rotl => rotl(a, b),
        Plain::Rotr => rotr(a, b),
    }
}

#[inline(always)]
pub fn divided(operator: Division, a: u32, b: u32) -> Result<u32, Trap>
    ensures { result ≡ divided w32 operator a b }
{
    match operator {
        Division::DivS => div_s(a, b),
        Division::DivU => div_u(a, b),
        Division::RemS => rem_s(a, b),
        Division::RemU => rem_u(a, b),
    }
}

#[inline(always)]
pub fn computed(operator: Binary, a: u32, b: u32) -> Result<u32, Trap>
    ensures { result ≡ computed w32 operator a b }
{
    match operator {
        Binary::Plain(operator) => Ok(plain(operator, a, b)),
        Binary::Division(operator) => divided(operator, a, b),
    }
}
