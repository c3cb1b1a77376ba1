//! The level of a net, added up drive by drive.
ghost use Rattle.std.specs.Prelude.{◌≡◌, ℕ, ◌<◌, ◌&&◌, ◌==◌, List, [], ◌∷◌, length, map, slice_get, slice_index, Some, true, false};
ghost use Rattle.std.specs.List.{zip};
ghost use Rattle.board_model.specs.Resolve.{level_of_values};
ghost use Rattle.board_model.specs.Walks.{below};
ghost use Rattle.net_resolve.specs.Sums.{has_high, has_low, is_z, together, strong_level, weak_level, sum_at, added};
ghost use Rattle.net_resolve.specs.Sums.{is_loose, own_level, over_adds, resistors_add, level_here};
ghost use Rattle.board_model.specs.Pairs.{ArePairs};

use crate::groups::is_net_loose;
use sim_base::{Drive, Level};

pub(crate) fn is_level_z(level: Level) -> bool
    ensures { result ≡ is_z level }
{
    matches!(level, Level::Z)
}

fn is_high_in(level: Level) -> bool
    ensures { result ≡ has_high level }
{
    match level {
        Level::High | Level::X => true,
        Level::Low | Level::Z => false,
        Level::Wiped(position) => position >= 512,
    }
}

fn is_low_in(level: Level) -> bool
    ensures { result ≡ has_low level }
{
    match level {
        Level::Low | Level::X => true,
        Level::High | Level::Z => false,
        Level::Wiped(position) => position < 512,
    }
}

/// The level by the values that come together.
fn by_values(high: bool, low: bool) -> Level
    ensures { result ≡ level_of_values high low }
{
    match (high, low) {
        (true, true) => Level::X,
        (true, false) => Level::High,
        (false, true) => Level::Low,
        (false, false) => Level::Z,
    }
}

/// The level where the drives of two levels come together.
fn sum(a: Level, b: Level) -> Level
    ensures { result ≡ together a b }
{
    if is_level_z(a) {
        b
    } else if is_level_z(b) {
        a
    } else {
        by_values(is_high_in(a) | is_high_in(b), is_low_in(a) | is_low_in(b))
    }
}

fn strong(drive: Drive) -> Level
    ensures { result ≡ strong_level drive }
{
    match drive {
        Drive::Low => Level::Low,
        Drive::High => Level::High,
        Drive::Z | Drive::PullLow | Drive::PullHigh | Drive::Wiper(_) => Level::Z,
    }
}

fn weak(drive: Drive) -> Level
    ensures { result ≡ weak_level drive }
{
    match drive {
        Drive::PullLow => Level::Low,
        Drive::PullHigh => Level::High,
        Drive::Wiper(position) => Level::Wiped(position),
        Drive::Z | Drive::Low | Drive::High => Level::Z,
    }
}

/// Adds the strong drives of all pins, to the sum of each net's group.
pub(crate) fn add_strong(net_of: &[u16], drives: &[Drive], groups: &[u16], sums: &mut [Level])
    requires pins { length drives.now ≡ length net_of.now }
    requires nets { (k : ℕ) → k < length net_of.now → slice_index net_of.now k < length groups.now }
    requires groups { (n : ℕ) → n < length groups.now → slice_index groups.now n < length sums.old }
    ensures { (g : ℕ) → sum_at sums.new g ≡ added strong_level (λ n. slice_index groups.now n == g) (sum_at sums.old g) (zip net_of.now drives.now) }
{
    for i in 0..net_of.len() {
        let group = groups[net_of[i] as usize] as usize;
        sums[group] = sum(sums[group], strong(drives[i]));
    }
}

/// Writes the strong value of each net's group, and tells whether each has one.
pub(crate) fn put_strong(groups: &[u16], strong: &[Level], levels: &mut [Level]) -> bool
    requires levels { length levels.old ≡ length groups.now }
    requires groups { (n : ℕ) → n < length groups.now → slice_index groups.now n < length strong.now }
    ensures levels { levels.new ≡ map (own_level groups.now strong.now) (below (length groups.now)) }
    ensures driven { result ≡ true → (n : ℕ) → n < length groups.now → is_loose groups.now strong.now n ≡ false }
{
    let mut driven = true;
    for n in 0..levels.len() {
        let own = strong[groups[n] as usize];
        let is_loose = is_level_z(own);
        levels[n] = own;
        driven = driven & !is_loose;
    }
    driven
}

/// Adds a weak drive of a pin, to the sum of the area of its net, where that net is loose.
fn add_weak_of(
    net: u16,
    drive: Drive,
    groups: &[u16],
    strong: &[Level],
    areas: &[u16],
    sums: &mut [Level],
)
    requires net { net < length groups.now }
    requires group { slice_index groups.now net < length strong.now }
    requires places { length areas.now ≡ length groups.now }
    requires area { slice_index areas.now net < length sums.old }
    ensures { (a : ℕ) → sum_at sums.new a
        ≡ added weak_level (λ n. is_loose groups.now strong.now n && (slice_index areas.now n == a)) (sum_at sums.old a) ((net, drive) ∷ []) }
{
    if is_net_loose(groups, strong, net) {
        let area = areas[net as usize] as usize;
        sums[area] = sum(sums[area], weak(drive));
    }
}

/// Adds the weak drives of all pins on loose nets, to the sum of each net's area.
pub(crate) fn add_weak(
    net_of: &[u16],
    drives: &[Drive],
    groups: &[u16],
    strong: &[Level],
    areas: &[u16],
    sums: &mut [Level],
)
    requires pins { length drives.now ≡ length net_of.now }
    requires nets { (k : ℕ) → k < length net_of.now → slice_index net_of.now k < length groups.now }
    requires groups { (n : ℕ) → n < length groups.now → slice_index groups.now n < length strong.now }
    requires places { length areas.now ≡ length groups.now }
    requires areas { (n : ℕ) → n < length areas.now → slice_index areas.now n < length sums.old }
    ensures { (a : ℕ) → sum_at sums.new a
        ≡ added weak_level (λ n. is_loose groups.now strong.now n && (slice_index areas.now n == a)) (sum_at sums.old a) (zip net_of.now drives.now) }
{
    for i in 0..net_of.len() {
        add_weak_of(net_of[i], drives[i], groups, strong, areas, sums);
    }
}

/// Adds the strong value at one end of a resistor, to the sum of the area of its other end, where that is loose.
fn add_over(from: u16, to: u16, groups: &[u16], strong: &[Level], areas: &[u16], sums: &mut [Level])
    requires from { from < length groups.now }
    requires to { to < length groups.now }
    requires groups { (n : ℕ) → n < length groups.now → slice_index groups.now n < length strong.now }
    requires places { length areas.now ≡ length groups.now }
    requires area { slice_index areas.now to < length sums.old }
    ensures { (a : ℕ) → sum_at sums.new a ≡ over_adds groups.now strong.now areas.now a from to (sum_at sums.old a) }
{
    let from_driven = !is_net_loose(groups, strong, from);
    let to_loose = is_net_loose(groups, strong, to);
    if from_driven & to_loose {
        let area = areas[to as usize] as usize;
        sums[area] = sum(sums[area], strong[groups[from as usize] as usize]);
    }
}

/// Adds the strong values that resistors bring to loose areas.
pub(crate) fn add_resistors(
    resistors: &[(u16, u16)],
    groups: &[u16],
    strong: &[Level],
    areas: &[u16],
    sums: &mut [Level],
)
    requires resistors { ArePairs (length groups.now) resistors.now }
    requires groups { (n : ℕ) → n < length groups.now → slice_index groups.now n < length strong.now }
    requires places { length areas.now ≡ length groups.now }
    requires areas { (n : ℕ) → n < length areas.now → slice_index areas.now n < length sums.old }
    ensures { (a : ℕ) → sum_at sums.new a ≡ resistors_add groups.now strong.now areas.now a (sum_at sums.old a) resistors.now }
{
    for i in 0..resistors.len() {
        let (a, b) = resistors[i];
        add_over(b, a, groups, strong, areas, sums);
        add_over(a, b, groups, strong, areas, sums);
    }
}

/// Writes the level of each net.
pub(crate) fn put_levels(
    groups: &[u16],
    strong: &[Level],
    areas: &[u16],
    sums: &[Level],
    levels: &mut [Level],
)
    requires places { length areas.now ≡ length groups.now }
    requires levels { length levels.old ≡ length groups.now }
    requires groups { (n : ℕ) → n < length groups.now → slice_index groups.now n < length strong.now }
    requires areas { (n : ℕ) → n < length areas.now → slice_index areas.now n < length sums.now }
    ensures { levels.new ≡ map (level_here groups.now strong.now areas.now sums.now) (below (length groups.now)) }
{
    for n in 0..levels.len() {
        let own = strong[groups[n] as usize];
        levels[n] = if is_level_z(own) {
            sums[areas[n] as usize]
        } else {
            own
        };
    }
}
