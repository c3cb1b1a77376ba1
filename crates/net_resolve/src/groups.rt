//! Loose nets, and which of them resistors connect.
ghost use Rattle.std.specs.Prelude.{◌≡◌, ◌≢◌, ℕ, ◌<◌, ◌&&◌, List, length, map, Some, true, false, slice_get, slice_index};
ghost use Rattle.net_resolve.specs.Sums.{is_loose};
ghost use Rattle.board_model.specs.Pairs.{ArePairs};

use crate::sums::is_level_z;
use sim_base::Level;

/// Whether a net's group has no strong value.
pub(crate) fn is_net_loose(groups: &[u16], strong: &[Level], net: u16) -> bool
    requires net { net < length groups.now }
    requires group { slice_index groups.now net < length strong.now }
    ensures { result ≡ is_loose groups.now strong.now net }
{
    is_level_z(strong[groups[net as usize] as usize])
}

/// Tells of each resistor whether it connects two loose nets, and whether any does.
pub(crate) fn put_bridges(
    resistors: &[(u16, u16)],
    groups: &[u16],
    strong: &[Level],
    bridges: &mut [bool],
) -> bool
    requires resistors { ArePairs (length groups.now) resistors.now }
    requires groups { (n : ℕ) → n < length groups.now → slice_index groups.now n < length strong.now }
    requires bridges { length bridges.old ≡ length resistors.now }
    ensures bridges { bridges.new ≡ map (λ r. is_loose groups.now strong.now r.0 && is_loose groups.now strong.now r.1) resistors.now }
    ensures none { result ≡ false → (k : ℕ) → slice_get bridges.new k ≢ Some true }
{
    let mut found = false;
    for i in 0..resistors.len() {
        let (a, b) = resistors[i];
        let one = is_net_loose(groups, strong, a);
        let other = is_net_loose(groups, strong, b);
        let bridge = one & other;
        bridges[i] = bridge;
        found = found | bridge;
    }
    found
}
