//! What a part that does nothing by itself is.
ghost use Rattle.std.specs.Prelude.{◌≡◌, ℕ, ◌<◌, ◌≤◌, false, length, slice_get, Some};
ghost use Rattle.part_reactive.specs.Reaction.{Reaction, ReactionLaws};

use sim_base::{Drive, Level, MOST_CYCLES};

/// A part that does nothing by itself, but for the levels of its pins, which `Reactive` holds.
pub trait Behaviour {
    ghost Own: { Type 0 };

    ghost reaction: { Reaction Own };

    ghost own: { Self → Own };

    /// How many pins it has, at most 32; no call changes it.
    fn pins(&self) -> u8
        ensures count { result ≡ length (reaction.drives (own self.now)) }
        ensures few { result ≤ 32 };

    /// How many contacts it has; no call changes it.
    fn contacts(&self) -> u8
        ensures { result ≡ length (reaction.contacts (own self.now)) };

    /// What the pin drives.
    fn drive(&self, pin: u8) -> Drive
        requires { pin < length (reaction.drives (own self.now)) }
        ensures { slice_get (reaction.drives (own self.now)) pin ≡ Some result };

    /// Whether the contact is closed. A part without contacts may answer anything.
    fn contact(&self, i: u8) -> bool
        ensures { i < length (reaction.contacts (own self.now)) → slice_get (reaction.contacts (own self.now)) i ≡ Some result };

    /// Does one step on the levels of its pins, those of the step before beside them, and answers
    /// whether a drive or a contact may have changed.
    fn react(&mut self, before: &[Level], now: &[Level], input: Option<u16>) -> bool
        requires before { length before.now ≡ length (reaction.drives (own self.old)) }
        requires pins { length now.now ≡ length (reaction.drives (own self.old)) }
        requires counted { reaction.counted (own self.old) < MOST_CYCLES }
        ensures own { own self.new ≡ reaction.react (own self.old) before.now now.now input }
        ensures drives { result ≡ false → reaction.drives (own self.new) ≡ reaction.drives (own self.old) }
        ensures contacts { result ≡ false → reaction.contacts (own self.new) ≡ reaction.contacts (own self.old) };

    ghost laws: { ReactionLaws reaction };
}
