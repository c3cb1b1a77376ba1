//! Halves of bytes.
ghost use Rattle.std.specs.Prelude.{◌≡◌, ◌<◌};
ghost use Rattle.parts_display.specs.Halves.{half};

/// Four bits as a number, the lowest first.
pub(crate) fn half(a: bool, b: bool, c: bool, d: bool) -> u8
    ensures value { result ≡ half a b c d }
    ensures short { result < 16 }
{
    u8::from(a) + 2 * u8::from(b) + 4 * u8::from(c) + 8 * u8::from(d)
}
