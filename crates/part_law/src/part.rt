//! What a part is to an engine.
ghost use Rattle.std.specs.Prelude.{◌≡◌, ℕ, ◌+◌, ◌-◌, ◌<◌, ◌≤◌, Bool, true, false, List, [], length, take, slice_get, Option, None, Some};
ghost use Rattle.part_law.specs.Machine.{Machine, Laws, glide, dues, sent, IsQuiet, IsFirstDue, IsSame, MayWake, Hears};
ghost use Rattle.part_law.specs.Spans.{IsIn};
ghost use Rattle.std.specs.Option.{option_to_list};

use crate::going::below;
use crate::span::Span;
use sim_base::{Drive, Level, MOST_CYCLES, Steps};
use std::sync::ledger::Ledger;

/// Where `Part::go_on` stopped, and what its last wake showed.
#[derive(Clone, Copy, Debug, PartialEq, Eq, Drop)]
pub struct Went {
    /// The cycle at which the part stands.
    pub to: u64,
    /// Whether its last wake may have changed a drive or a contact.
    pub changed: bool,
    /// The byte that its last wake emitted.
    pub byte: Option<u8>,
}

/// A part of a board, which stands at a cycle in a state of its machine.
pub trait Part {
    ghost State: { Type 0 };

    ghost machine: { Machine State };

    ghost state: { Self → State };

    /// The cycle whose step comes next.
    ghost now: { Self → ℕ };

    /// How often it was woken.
    ghost wakes: { Self → ℕ };

    /// Whether its last wake may have changed a drive or a contact.
    ghost changes: { Self → Bool };

    /// Whether its last wake may have changed what a pin drives.
    ghost moves: { Self → ℕ → Bool } = { λ _ _. true };

    /// How many pins it has; no call changes it.
    fn pins(&self) -> u8
        ensures { result ≡ length (machine.drives (state self.now)) };

    /// How many contacts it has; no call changes it.
    fn contacts(&self) -> u8
        ensures { result ≡ length (machine.contacts (state self.now)) };

    /// What the pin drives.
    fn drive(&self, pin: u8) -> Drive
        requires { pin < length (machine.drives (state self.now)) }
        ensures { slice_get (machine.drives (state self.now)) pin ≡ Some result };

    /// Whether the contact is closed. A part without contacts may answer anything.
    fn contact(&self, i: u8) -> bool
        ensures { i < length (machine.contacts (state self.now)) → slice_get (machine.contacts (state self.now)) i ≡ Some result };

    /// The first cycle from now on at which the part is due though nothing changes.
    fn due(&self) -> Option<u64>
        ensures { IsFirstDue machine (state self.now) (now self.now) result };

    /// How often the part was woken.
    fn woken(&self) -> u64
        ensures { result ≡ wakes self.now };

    /// Whether the last wake may have changed a drive or a contact; where it did not, an engine need
    /// not read them again. A part may always answer that it may have.
    fn changed(&self) -> bool
        ensures { result ≡ changes self.now };

    /// The pins whose drives the last wake may have changed, where it may have changed any. A part may
    /// always tell all its pins.
    fn moved(&self) -> Span
        ensures { (pin : ℕ) → pin < 255 → moves self.now pin ≡ true → IsIn result pin }
    {
        Span::all()
    }

    /// Goes on to cycle `to`, before which nothing is due: as many steps on the held levels.
    fn settle(&mut self, to: u64)
        requires later { now self.old ≤ to }
        requires end { to ≤ MOST_CYCLES }
        requires quiet { IsQuiet machine (state self.old) (now self.old) (to - now self.old) }
        ensures state { state self.new ≡ glide machine (state self.old) (now self.old) (to - now self.old) }
        ensures now { now self.new ≡ to }
        ensures wakes { wakes self.new ≡ wakes self.old };

    /// Does one step on these levels of its pins, and answers the byte that it emits. A part is woken
    /// only where it is due, or a script value comes, or a level differs from the one that it holds.
    fn wake(&mut self, levels: &[Level], input: Option<u16>) -> Option<u8>
        requires pins { length levels.now ≡ length (machine.drives (state self.old)) }
        requires end { now self.old < MOST_CYCLES }
        requires count { wakes self.old ≤ now self.old }
        requires may { MayWake machine (state self.old) (now self.old) levels.now input }
        ensures state { state self.new ≡ (machine.step (state self.old) (now self.old) levels.now input).0 }
        ensures byte { result ≡ (machine.step (state self.old) (now self.old) levels.now input).1 }
        ensures now { now self.new ≡ now self.old + 1 }
        ensures wakes { wakes self.new ≡ wakes self.old + 1 }
        ensures drives { changes self.new ≡ false → machine.drives (state self.new) ≡ machine.drives (state self.old) }
        ensures others { (pin : ℕ) → moves self.new pin ≡ false → slice_get (machine.drives (state self.new)) pin ≡ slice_get (machine.drives (state self.old)) pin }
        ensures contacts { changes self.new ≡ false → machine.contacts (state self.new) ≡ machine.contacts (state self.old) };

    /// Does one step on the levels that it holds, as `wake` does on those: for an engine that knows
    /// that no level changed since the last wake.
    fn wake_held(&mut self, input: Option<u16>) -> Option<u8>
        requires end { now self.old < MOST_CYCLES }
        requires count { wakes self.old ≤ now self.old }
        requires may { MayWake machine (state self.old) (now self.old) (machine.held (state self.old)) input }
        ensures state { state self.new ≡ (machine.step (state self.old) (now self.old) (machine.held (state self.old)) input).0 }
        ensures byte { result ≡ (machine.step (state self.old) (now self.old) (machine.held (state self.old)) input).1 }
        ensures now { now self.new ≡ now self.old + 1 }
        ensures wakes { wakes self.new ≡ wakes self.old + 1 }
        ensures drives { changes self.new ≡ false → machine.drives (state self.new) ≡ machine.drives (state self.old) }
        ensures others { (pin : ℕ) → moves self.new pin ≡ false → slice_get (machine.drives (state self.new)) pin ≡ slice_get (machine.drives (state self.old)) pin }
        ensures contacts { changes self.new ≡ false → machine.contacts (state self.new) ≡ machine.contacts (state self.old) };

    /// Goes on to cycle `t`, before which nothing is due, and does one step on the levels of its pins, behind which others may
    /// stand: `settle`, `wake` and `due` in one call, of a part that sends no byte then and is due in no cycle behind it. It
    /// answers whether a drive or a contact may have changed. A part may always answer None, and then stays as it is.
    fn hear(&mut self, levels: &[Level], t: u64) -> Option<bool>
        requires later { now self.old ≤ t }
        requires end { t < MOST_CYCLES }
        requires quiet { IsQuiet machine (state self.old) (now self.old) (t - now self.old) }
        requires pins { length (machine.drives (state self.old)) ≤ length levels.now }
        requires count { wakes self.old ≤ now self.old }
        requires may { MayWake machine (glide machine (state self.old) (now self.old) (t - now self.old)) t (take (length (machine.drives (state self.old))) levels.now) None }
        ensures stays { result ≡ None → self.new ≡ self.old }
        ensures hears { (changed : Bool) → result ≡ Some changed
            → Hears machine (state self.old) (now self.old) t (take (length (machine.drives (state self.old))) levels.now) (state self.new) changed }
        ensures now { (changed : Bool) → result ≡ Some changed → now self.new ≡ t + 1 }
        ensures wakes { (changed : Bool) → result ≡ Some changed → wakes self.new ≡ wakes self.old + 1 }
        ensures others { (changed : Bool) → result ≡ Some changed → (pin : ℕ) → moves self.new pin ≡ false
            → slice_get (machine.drives (state self.new)) pin ≡ slice_get (machine.drives (glide machine (state self.old) (now self.old) (t - now self.old))) pin }
    {
        None
    }

    /// Goes on by itself on the levels that it holds, where no script value comes before cycle `limit`:
    /// it is woken in each cycle in which it is due, up to the first wake that may have changed a drive
    /// or a contact or that emitted a byte, and else up to `limit`; after a byte it goes no further.
    /// `steps` ticks once a wake. A part may stop earlier, but goes on by one cycle at least.
    fn go_on<L: Ledger>(&mut self, limit: u64, steps: &mut Steps<L>) -> Went
        requires later { now self.old ≤ limit }
        requires end { limit ≤ MOST_CYCLES }
        requires count { wakes self.old ≤ now self.old }
        requires valid { machine.valid (state self.old) (now self.old) ≡ true }
        ensures to { now self.new ≡ result.to }
        ensures forward { now self.old ≤ result.to }
        ensures within { result.to ≤ limit }
        ensures progress { now self.old < limit → now self.old < result.to }
        ensures state { state self.new ≡ glide machine (state self.old) (now self.old) (result.to - now self.old) }
        ensures wakes { wakes self.new ≡ wakes self.old + dues machine (state self.old) (now self.old) (result.to - now self.old) }
        ensures steps { steps.new ≡ steps.old + dues machine (state self.old) (now self.old) (result.to - now self.old) }
        ensures same { IsSame machine (state self.old) (now self.old) (result.to - now self.old) }
        ensures drives { result.changed ≡ false → machine.drives (state self.new) ≡ machine.drives (state self.old) }
        ensures others { (pin : ℕ) → moves self.new pin ≡ false → slice_get (machine.drives (state self.new)) pin ≡ slice_get (machine.drives (state self.old)) pin }
        ensures contacts { result.changed ≡ false → machine.contacts (state self.new) ≡ machine.contacts (state self.old) }
        ensures sent { sent machine (state self.old) (now self.old) (result.to - now self.old) ≡ option_to_list result.byte }
        ensures silent { sent machine (state self.old) (now self.old) (result.to - now self.old - 1) ≡ [] }
    {
        while let Some(u) = below(self.due(), limit) {
            self.settle(u);
            steps.tick();
            let byte = self.wake_held(None);
            let changed = self.changed();
            if changed | byte.is_some() {
                return Went {
                    to: u + 1,
                    changed,
                    byte,
                };
            }
        }
        self.settle(limit);
        Went {
            to: limit,
            changed: false,
            byte: None,
        }
    }

    ghost laws: { Laws machine };
}
