//! Who is handed the rows and bytes of a run, so that the engine knows no text.
ghost use Rattle.std.specs.Prelude.{◌≡◌, ℕ, List, [], ◌∷◌, ◌<◌, Bool, true, false, Option, Some};
ghost use Rattle.std.specs.Option.{ForSome};
ghost use Rattle.sim_base.specs.Causes.{Rose};
ghost use Rattle.sim_base.specs.Rows.{Row, Handed, Appends, AreBut};
ghost use Rattle.sim_base.specs.declared.signal.Level.{Level};

use crate::bench::WriteEnd;
use crate::limits::MOST_CYCLES;
use crate::signal::{Drive, Level};

/// A watcher is whole until a call fails, and then has stopped within what it was handed.
pub trait Watcher {
    /// That it stands for these rows and bytes.
    ghost stands: { Self → List Row → List ℕ → Type 0 };

    /// That it has stopped within these rows and bytes.
    ghost stopped: { Self → List Row → List ℕ → Type 0 };

    ghost whole: { Self → Bool };

    /// The cycle of its last row.
    ghost last: { Self → Option ℕ };

    /// That its last row had these levels, as far as it looks at them.
    ghost seen: { Self → List Level → Type 0 };

    ghost faults: { Self → ℕ };

    /// What no call changes, such as the name of a reference that it holds: by that name whoever
    /// lent the reference knows that the watcher gives it back.
    ghost Place: { Type 0 };

    ghost place: { Self → Place };

    /// Is handed the levels by net and the drives by pin of a cycle after the last row's, and is told
    /// the nets: each of the others has the level that it had in the last row.
    fn row(&mut self, t: u64, levels: &[Level], drives: &[Drive], changed: &[u16]) -> WriteEnd
        requires whole { whole self.old ≡ true }
        requires end { t < MOST_CYCLES }
        requires later { ForSome (last self.old) (λ u. u < t) }
        requires changed { ForSome (last self.old) (λ u. (before : List Level) × seen self.old before × AreBut changed.now before levels.now) }
        ensures ok { result ≡ WriteEnd.Ok → Handed whole faults stands self.old self.new (record { cycle = t; levels = levels.now; drives = drives.now } ∷ []) [] }
        ensures last { result ≡ WriteEnd.Ok → last self.new ≡ Some t }
        ensures seen { result ≡ WriteEnd.Ok → seen self.new levels.now }
        ensures failed { result ≡ WriteEnd.Failed → Rose (faults self.old) (faults self.new)
            × Appends (stands self.old) (stopped self.new) (record { cycle = t; levels = levels.now; drives = drives.now } ∷ []) [] }
        ensures broken { result ≡ WriteEnd.Failed → whole self.new ≡ false }
        ensures place { place self.new ≡ place self.old };

    /// Is handed a byte that the serial port sent.
    fn byte(&mut self, b: u8) -> WriteEnd
        requires { whole self.old ≡ true }
        ensures ok { result ≡ WriteEnd.Ok → Handed whole faults stands self.old self.new [] (b ∷ []) }
        ensures last { result ≡ WriteEnd.Ok → last self.new ≡ last self.old }
        ensures seen { result ≡ WriteEnd.Ok → (levels : List Level) → seen self.old levels → seen self.new levels }
        ensures failed { result ≡ WriteEnd.Failed → Rose (faults self.old) (faults self.new)
            × Appends (stands self.old) (stopped self.new) [] (b ∷ []) }
        ensures broken { result ≡ WriteEnd.Failed → whole self.new ≡ false }
        ensures place { place self.new ≡ place self.old };
}
