//! Integers of 64 bits ("Integer Operations" of the core specification). An integer is its unsigned value.
ghost use Rattle.std.specs.Prelude.{◌≡◌, ◌<◌, int_div};
ghost use Rattle.std.specs.Int.{w8, w16, w32, w64, cast_signed, cast_unsigned};
ghost use Rattle.wasm_num.specs.Integer.{extend_s, idiv_u, idiv_s, irem_u, irem_s, ishl, ishr_u, ishr_s, irotl, irotr, ilt_s, igt_s, ile_s, ige_s};
ghost use Rattle.wasm_num.specs.Numeric.{plain, divided};

use crate::trap::Trap;
use wasm_code::{Division, Plain};

/// A byte by its sign.
#[inline(always)]
pub fn extend8_s(a: u8) -> u64
    ensures { result ≡ extend_s w8 w64 a }
{
    i64::from(a.cast_signed()).cast_unsigned()
}

/// Two bytes by their sign.
#[inline(always)]
pub fn extend16_s(a: u16) -> u64
    ensures { result ≡ extend_s w16 w64 a }
{
    i64::from(a.cast_signed()).cast_unsigned()
}

/// Four bytes by their sign.
#[inline(always)]
pub fn extend32_s(a: u32) -> u64
    ensures { result ≡ extend_s w32 w64 a }
{
    i64::from(a.cast_signed()).cast_unsigned()
}

#[inline(always)]
pub fn div_s(a: u64, b: u64) -> Result<u64, Trap>
    ensures { result ≡ idiv_s w64 a b }
{
    if b == 0 {
        return Err(Trap::DivideByZero);
    }
    if a == 0x8000_0000_0000_0000 && b == u64::MAX {
        return Err(Trap::Overflow);
    }
    Ok(quotient_s(a, b))
}

#[inline(always)]
fn quotient_s(a: u64, b: u64) -> u64
    requires { 0 < b }
    ensures { result ≡ cast_unsigned w64 (int_div (cast_signed w64 a) (cast_signed w64 b)) }
{
    a.cast_signed()
        .wrapping_div(b.cast_signed())
        .cast_unsigned()
}

#[inline(always)]
pub fn div_u(a: u64, b: u64) -> Result<u64, Trap>
    ensures { result ≡ idiv_u w64 a b }
{
    if b == 0 {
        return Err(Trap::DivideByZero);
    }
    Ok(a / b)
}

#[inline(always)]
pub fn rem_s(a: u64, b: u64) -> Result<u64, Trap>
    ensures { result ≡ irem_s w64 a b }
{
    if b == 0 {
        return Err(Trap::DivideByZero);
    }
    Ok(
        a.cast_signed()
            .wrapping_rem(b.cast_signed())
            .cast_unsigned(),
    )
}

#[inline(always)]
pub fn rem_u(a: u64, b: u64) -> Result<u64, Trap>
    ensures { result ≡ irem_u w64 a b }
{
    if b == 0 {
        return Err(Trap::DivideByZero);
    }
    Ok(a % b)
}

#[inline(always)]
pub fn shl(a: u64, b: u64) -> u64
    ensures { result ≡ ishl w64 a b }
{
    a << (b % 64)
}

#[inline(always)]
pub fn shr_u(a: u64, b: u64) -> u64
    ensures { result ≡ ishr_u w64 a b }
{
    a >> (b % 64)
}

#[inline(always)]
pub fn shr_s(a: u64, b: u64) -> u64
    ensures { result ≡ ishr_s w64 a b }
{
    (a.cast_signed() >> (b % 64)).cast_unsigned()
}

#[inline(always)]
pub fn rotl(a: u64, b: u64) -> u64
    ensures { result ≡ irotl w64 a b }
{
    a.rotate_left((b % 64) as u32)
}

#[inline(always)]
pub fn rotr(a: u64, b: u64) -> u64
    ensures { result ≡ irotr w64 a b }
{
    a.rotate_right((b % 64) as u32)
}

#[inline(always)]
pub fn lt_s(a: u64, b: u64) -> bool
    ensures { result ≡ ilt_s w64 a b }
{
    a.cast_signed() < b.cast_signed()
}

#[inline(always)]
pub fn gt_s(a: u64, b: u64) -> bool
    ensures { result ≡ igt_s w64 a b }
{
    a.cast_signed() > b.cast_signed()
}

#[inline(always)]
pub fn le_s(a: u64, b: u64) -> bool
    ensures { result ≡ ile_s w64 a b }
{
    a.cast_signed() <= b.cast_signed()
}

#[inline(always)]
pub fn ge_s(a: u64, b: u64) -> bool
    ensures { result ≡ ige_s w64 a b }
{
    a.cast_signed() >= b.cast_signed()
}

/// An operator that never traps; a comparison gives 1 where it holds, else 0.
#[inline(always)]
pub fn plain(operator: Plain, a: u64, b: u64) -> u64
    ensures { result ≡ plain w64 operator a b }
{
    match operator {
        Plain::Eq => u64::from(a == b),
        Plain::Ne => u64::from(a != b),
        Plain::LtS => u64::from(lt_s(a, b)),
        Plain::LtU => u64::from(a < b),
        Plain::GtS => u64::from(gt_s(a, b)),
        Plain::GtU => u64::from(a > b),
        Plain::LeS => u64::from(le_s(a, b)),
        Plain::LeU => u64::from(a <= b),
        Plain::GeS => u64::from(ge_s(a, b)),
        Plain::GeU => u64::from(a >= b),
        Plain::Add => a.wrapping_add(b),
        Plain::Sub => a.wrapping_sub(b),
        Plain::Mul => a.wrapping_mul(b),
        Plain::And => a & b,
        Plain::Or => a | b,
        Plain::Xor => a ^ b,
        Plain::Shl => shl(a, b),
        Plain::ShrS => shr_s(a, b),
        Plain::ShrU => shr_u(a, b),
        Plain::Rotl => rotl(a, b),
        Plain::Rotr => rotr(a, b),
    }
}

#[inline(always)]
pub fn divided(operator: Division, a: u64, b: u64) -> Result<u64, Trap>
    ensures { result ≡ divided w64 operator a b }
{
    match operator {
        Division::DivS => div_s(a, b),
        Division::DivU => div_u(a, b),
        Division::RemS => rem_s(a, b),
        Division::RemU => rem_u(a, b),
    }
}
