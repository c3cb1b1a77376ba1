//! Single bits of a register.
ghost use Rattle.std.specs.Prelude.{◌≡◌, ◌<◌, ◌≤◌, ◌^◌};
ghost use Rattle.avr_unit.specs.Bits.{is_set, one, with_bit};

/// Whether a bit of a register is 1.
pub fn has_bit(register: u8, bit: u8) -> bool
    requires { bit < 8 }
    ensures { result ≡ is_set register bit }
{
    register >> bit & 1 == 1
}

/// The number that a single bit has: 1 where it is set.
pub fn one(set: bool) -> u8
    ensures value { result ≡ one set }
    ensures short { result ≤ 1 }
{
    if set { 1 } else { 0 }
}

/// The number whose only bit is this one.
pub fn mask(bit: u8) -> u8
    requires { bit < 8 }
    ensures { result ≡ 2 ^ bit }
{
    1 << bit
}

/// A register of which one bit alone is written.
pub fn with_bit(register: u8, bit: u8, value: bool) -> u8
    requires { bit < 8 }
    ensures { result ≡ with_bit register bit value }
{
    let set = register | mask(bit);
    if value { set } else { set ^ mask(bit) }
}
