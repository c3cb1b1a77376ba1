//! Arithmetic on a register.
ghost use Rattle.std.specs.Prelude.{◌≡◌, ◌+◌, ◌-◌, ◌%◌};
ghost use Rattle.avr_alu.specs.Flags.{sum_of, added, carry, add_overflow, borrow, sub_overflow, difference_of, subtracted, combined, negated_of, negated, complemented, incremented, decremented, shifted_of, shifted};

use crate::bits::{bit_0, bit_3, bit_7, xor};
use crate::flags::Flags;

/// The sum of two bytes and a carry, mod 256, with the flags of ADD and ADC.
pub fn add(a: u8, b: u8, c: bool) -> (u8, Flags)
    ensures value { result.0 ≡ sum_of a b c }
    ensures flags { result.1 ≡ added a b (sum_of a b c) }
{
    let r = sum(a, b, c);
    let n = bit_7(r);
    let v = is_add_overflow(a, b, r);
    let flags = Flags {
        h: carry_3(a, b, c),
        s: xor(n, v),
        v,
        n,
        z: r == 0,
        c: carry_7(a, b, c),
    };
    (r, flags)
}

#[inline]
pub(crate) fn sum(a: u8, b: u8, c: bool) -> u8
    ensures { result ≡ sum_of a b c }
{
    (a as u16 + b as u16 + c as u16 & 0xFF) as u8
}

fn carry_3(a: u8, b: u8, c: bool) -> bool
    ensures { result ≡ carry 3 a b (sum_of a b c) }
{
    (a & 0xF) + (b & 0xF) + c as u8 > 15
}

#[inline]
pub(crate) fn carry_7(a: u8, b: u8, c: bool) -> bool
    ensures { result ≡ carry 7 a b (sum_of a b c) }
{
    a as u16 + b as u16 + c as u16 > 255
}

fn is_add_overflow(a: u8, b: u8, r: u8) -> bool
    ensures { result ≡ add_overflow a b r }
{
    let (a, b, r) = (bit_7(a), bit_7(b), bit_7(r));
    (a & b & !r) | (!a & !b & r)
}

/// The difference of a byte, a byte and a borrow, mod 256, with the flags of SUB and CP. (SBC and
/// CPC keep Z where it is 0: the core sees to that.)
pub fn sub(a: u8, b: u8, c: bool) -> (u8, Flags)
    ensures value { result.0 ≡ difference_of a b c }
    ensures flags { result.1 ≡ subtracted a b (difference_of a b c) }
{
    let r = difference(a, b, c);
    let n = bit_7(r);
    let v = is_sub_overflow(a, b, r);
    let flags = Flags {
        h: borrow_3(a, b, c),
        s: xor(n, v),
        v,
        n,
        z: r == 0,
        c: borrow_7(a, b, c),
    };
    (r, flags)
}

#[inline]
pub(crate) fn difference(a: u8, b: u8, c: bool) -> u8
    ensures { result ≡ difference_of a b c }
{
    (a as u16 + 512 - b as u16 - c as u16 & 0xFF) as u8
}

fn borrow_3(a: u8, b: u8, c: bool) -> bool
    ensures { result ≡ borrow 3 a b (difference_of a b c) }
{
    (a & 0xF) < (b & 0xF) + c as u8
}

#[inline]
pub(crate) fn borrow_7(a: u8, b: u8, c: bool) -> bool
    ensures { result ≡ borrow 7 a b (difference_of a b c) }
{
    (a as u16) < b as u16 + c as u16
}

fn is_sub_overflow(a: u8, b: u8, r: u8) -> bool
    ensures { result ≡ sub_overflow a b r }
{
    let (a, b, r) = (bit_7(a), bit_7(b), bit_7(r));
    (a & !b & !r) | (!a & b & r)
}

/// The flags of AND, OR and EOR for their result.
pub fn logic(r: u8) -> Flags
    ensures { result ≡ combined r }
{
    let n = bit_7(r);
    Flags {
        h: false,
        s: n,
        v: false,
        n,
        z: r == 0,
        c: false,
    }
}

/// The two's complement, with the flags of NEG.
pub fn neg(a: u8) -> (u8, Flags)
    ensures value { result.0 ≡ negated_of a }
    ensures flags { result.1 ≡ negated a (negated_of a) }
{
    let r = 0_u8.wrapping_sub(a);
    let n = bit_7(r);
    let v = r == 0x80;
    let flags = Flags {
        h: bit_3(r) | bit_3(a),
        s: xor(n, v),
        v,
        n,
        z: r == 0,
        c: r != 0,
    };
    (r, flags)
}

/// The one's complement, with the flags of COM.
pub fn com(a: u8) -> (u8, Flags)
    ensures value { result.0 ≡ 255 - a }
    ensures flags { result.1 ≡ complemented (255 - a) }
{
    let r = 0xFF - a;
    let n = bit_7(r);
    let flags = Flags {
        h: false,
        s: n,
        v: false,
        n,
        z: r == 0,
        c: true,
    };
    (r, flags)
}

/// One more, mod 256, with the flags of INC.
pub fn inc(a: u8) -> (u8, Flags)
    ensures value { result.0 ≡ (a + 1) % 256 }
    ensures flags { result.1 ≡ incremented ((a + 1) % 256) }
{
    let r = a.wrapping_add(1);
    let n = bit_7(r);
    let v = r == 0x80;
    let flags = Flags {
        h: false,
        s: xor(n, v),
        v,
        n,
        z: r == 0,
        c: false,
    };
    (r, flags)
}

/// One less, mod 256, with the flags of DEC.
pub fn dec(a: u8) -> (u8, Flags)
    ensures value { result.0 ≡ (a + 255) % 256 }
    ensures flags { result.1 ≡ decremented ((a + 255) % 256) }
{
    let r = a.wrapping_sub(1);
    let n = bit_7(r);
    let v = r == 0x7F;
    let flags = Flags {
        h: false,
        s: xor(n, v),
        v,
        n,
        z: r == 0,
        c: false,
    };
    (r, flags)
}

/// Shifted right by one with a given top bit, with the flags of LSR, ROR and ASR.
pub fn shift(a: u8, top: bool) -> (u8, Flags)
    ensures value { result.0 ≡ shifted_of a top }
    ensures flags { result.1 ≡ shifted a (shifted_of a top) }
{
    let r = (a >> 1) + 128 * top as u8;
    let n = bit_7(r);
    let c = bit_0(a);
    let v = xor(n, c);
    let flags = Flags {
        h: false,
        s: xor(n, v),
        v,
        n,
        z: r == 0,
        c,
    };
    (r, flags)
}
