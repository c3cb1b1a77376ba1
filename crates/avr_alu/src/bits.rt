//! Single bits of bytes and words.
ghost use Rattle.std.specs.Prelude.{◌≡◌};
ghost use Rattle.avr_alu.specs.Flags.{bit, xor};

pub(crate) fn bit_0(a: u8) -> bool
    ensures { result ≡ bit 0 a }
{
    a & 1 == 1
}

pub(crate) fn bit_3(a: u8) -> bool
    ensures { result ≡ bit 3 a }
{
    a >> 3 & 1 == 1
}

pub(crate) fn bit_7(a: u8) -> bool
    ensures { result ≡ bit 7 a }
{
    a >> 7 & 1 == 1
}

pub(crate) fn bit_15(a: u16) -> bool
    ensures { result ≡ bit 15 a }
{
    a >> 15 & 1 == 1
}

pub(crate) fn xor(a: bool, b: bool) -> bool
    ensures { result ≡ xor a b }
{
    (a & !b) | (!a & b)
}
