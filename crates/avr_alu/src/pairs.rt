//! Arithmetic on a register pair, and products.
ghost use Rattle.std.specs.Prelude.{◌≡◌, ◌+◌, ◌-◌, ◌%◌, ◌*◌, ◌<◌, pos, ◌+ℤ◌, ◌*ℤ◌, ◌≤ℤ◌};
ghost use Rattle.std.specs.Int.{int_rem_euclid};
ghost use Rattle.avr_alu.specs.Flags.{bit, word_added, word_subtracted, low_word, product_of, multiplied};

use crate::bits::{bit_15, xor};
use crate::flags::Flags;

/// The sum of a word and a constant, mod 65,536, with the flags of ADIW.
pub fn adiw(a: u16, k: u8) -> (u16, Flags)
    ensures value { result.0 ≡ (a + k) % 65536 }
    ensures flags { result.1 ≡ word_added a ((a + k) % 65536) }
{
    let r = a.wrapping_add(k as u16);
    let (top, was) = (bit_15(r), bit_15(a));
    let v = !was & top;
    let flags = Flags {
        h: false,
        s: xor(top, v),
        v,
        n: top,
        z: r == 0,
        c: !top & was,
    };
    (r, flags)
}

/// The difference of a word and a constant, mod 65,536, with the flags of SBIW.
pub fn sbiw(a: u16, k: u8) -> (u16, Flags)
    ensures value { result.0 ≡ (a + 65536 - k) % 65536 }
    ensures flags { result.1 ≡ word_subtracted a ((a + 65536 - k) % 65536) }
{
    let r = a.wrapping_sub(k as u16);
    let (top, was) = (bit_15(r), bit_15(a));
    let v = was & !top;
    let flags = Flags {
        h: false,
        s: xor(top, v),
        v,
        n: top,
        z: r == 0,
        c: top & !was,
    };
    (r, flags)
}

/// The product of two factors from -128 to 255, mod 65,536, with the flags of MUL and its kin;
/// of a `fraction`, as FMUL has it, shifted left by one after C is taken.
pub fn product(a: i16, b: i16, fraction: bool) -> (u16, Flags)
    requires a_low { pos 0 ≤ℤ (a +ℤ pos 128) }
    requires a_high { a ≤ℤ pos 255 }
    requires b_low { pos 0 ≤ℤ (b +ℤ pos 128) }
    requires b_high { b ≤ℤ pos 255 }
    ensures value { result.0 ≡ product_of (low_word (a *ℤ b)) fraction }
    ensures flags { result.1 ≡ multiplied (low_word (a *ℤ b)) fraction }
{
    let whole = multiply(a, b);
    let r = if fraction { doubled(whole) } else { whole };
    let flags = Flags {
        h: false,
        s: false,
        v: false,
        n: false,
        z: r == 0,
        c: bit_15(whole),
    };
    (r, flags)
}

fn doubled(a: u16) -> u16
    ensures { result ≡ a * 2 % 65536 }
{
    a.wrapping_mul(2)
}

fn multiply(a: i16, b: i16) -> u16
    requires a_low { pos 0 ≤ℤ (a +ℤ pos 128) }
    requires a_high { a ≤ℤ pos 255 }
    requires b_low { pos 0 ≤ℤ (b +ℤ pos 128) }
    requires b_high { b ≤ℤ pos 255 }
    ensures { result ≡ low_word (a *ℤ b) }
{
    remainder(a, b)
}

fn remainder(a: i16, b: i16) -> u16
    requires a_low { pos 0 ≤ℤ (a +ℤ pos 128) }
    requires a_high { a ≤ℤ pos 255 }
    requires b_low { pos 0 ≤ℤ (b +ℤ pos 128) }
    requires b_high { b ≤ℤ pos 255 }
    ensures { pos result ≡ int_rem_euclid (a *ℤ b) (pos 65536) }
{
    (a as i32 * b as i32).rem_euclid(65536) as u16
}
