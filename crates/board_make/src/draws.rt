//! Numbers drawn from a seed.
ghost use Rattle.std.specs.Prelude.{◌≡◌};
ghost use Rattle.board_make.specs.Draws.{after};

/// The number after one; its upper half is a draw.
pub(crate) fn after(x: u32) -> u32
    ensures { result ≡ after x }
{
    ((1_664_525 * u64::from(x) + 1_013_904_223) % 4_294_967_296) as u32
}
