//! The levels of nets and of the pins on them, as they were last resolved.
ghost use Rattle.std.specs.Prelude.{◌≡◌, ◌≢◌, ℕ, ◌<◌, length, map, Some, true, false, slice_get, slice_set, slice_index};
ghost use Rattle.board_model.specs.Board.{level_at};
ghost use Rattle.net_resolve.specs.Marked.{has};
ghost use Rattle.net_resolve.specs.Subcircuits.{Lacks, AreNumbers};
ghost use Rattle.net_resolve.specs.Shown.{HasRoom, Moves};

use crate::marks::Numbers;
use sim_base::Level;

/// The level of each net and of each pin's net, and the nets whose levels changed.
#[derive(Drop)]
pub(crate) struct Shown {
    pub(crate) levels: Vec<Level>,
    pub(crate) pin_levels: Vec<Level>,
    pub(crate) changed: Numbers,
}

#[inline(always)]
fn is_same_level(a: Level, b: Level) -> bool
    ensures same { result ≡ true → a ≡ b }
    ensures differs { result ≡ false → a ≢ b }
{
    a == b
}

/// Puts the level of a pin's net in the pin's place.
#[inline]
fn put_pin(pin: usize, net_of: &[u16], levels: &[Level], pin_levels: &mut [Level])
    requires pin { pin < length net_of.now }
    requires nets { (k n : ℕ) → slice_get net_of.now k ≡ Some n → n < length levels.now }
    requires each { length pin_levels.old ≡ length net_of.now }
    ensures { pin_levels.new ≡ slice_set pin_levels.old pin (level_at levels.now (slice_index net_of.now pin)) }
{
    pin_levels[pin] = levels[net_of[pin] as usize];
}

/// Puts the level of its net in the place of each of these pins.
#[inline(always)]
pub(crate) fn put_pins(pins: &[usize], net_of: &[u16], levels: &[Level], pin_levels: &mut [Level])
    requires pins { (j k : ℕ) → slice_get pins.now j ≡ Some k → k < length net_of.now }
    requires nets { (k n : ℕ) → slice_get net_of.now k ≡ Some n → n < length levels.now }
    requires each { length pin_levels.old ≡ length net_of.now }
    ensures long { length pin_levels.new ≡ length net_of.now }
    ensures put { (j k : ℕ) → slice_get pins.now j ≡ Some k → slice_get pin_levels.new k ≡ slice_get (map (level_at levels.now) net_of.now) k }
    ensures others { (k : ℕ) → Lacks pins.now k → slice_get pin_levels.new k ≡ slice_get pin_levels.old k }
{
    for j in 0..pins.len() {
        put_pin(pins[j], net_of, levels, pin_levels);
    }
}

impl Shown {
    /// Puts the level of a net in its place, and lists the net where it had another.
    #[inline(always)]
    fn put_level(&mut self, level: Level, net: usize)
        requires net { net < length self.old.levels.items }
        requires room { HasRoom self.old }
        requires fresh { has self.old.changed.marked net ≡ false }
        ensures put { self.new.levels.items ≡ slice_set self.old.levels.items net level }
        ensures moves { Moves self.old.levels.items self.new.levels.items self.old.changed self.new.changed }
        ensures pins { self.new.pin_levels.items ≡ self.old.pin_levels.items }
    {
        if !is_same_level(self.levels[net], level) {
            self.levels[net] = level;
            self.changed.add(net as u16);
        }
    }

    /// Puts the level of each of these nets in its place, and lists those that had others.
    #[inline(always)]
    pub(crate) fn put_levels(&mut self, levels: &[Level], nets: &[usize])
        requires nets { AreNumbers (length self.old.levels.items) nets.now }
        requires each { length levels.now ≡ length nets.now }
        requires room { HasRoom self.old }
        requires fresh { (j n : ℕ) → slice_get nets.now j ≡ Some n → has self.old.changed.marked n ≡ false }
        ensures put { (j n : ℕ) → slice_get nets.now j ≡ Some n → slice_get self.new.levels.items n ≡ slice_get levels.now j }
        ensures others { (n : ℕ) → Lacks nets.now n → slice_get self.new.levels.items n ≡ slice_get self.old.levels.items n }
        ensures moves { Moves self.old.levels.items self.new.levels.items self.old.changed self.new.changed }
        ensures pins { self.new.pin_levels.items ≡ self.old.pin_levels.items }
    {
        for j in 0..nets.len() {
            self.put_level(levels[j], nets[j]);
        }
    }
}
