//! The first of two events that is still to come.
ghost use Rattle.std.specs.Prelude.{◌≡◌};
ghost use Rattle.chip_engines.specs.FirstDue.{due_from, earlier};

use sim_base::MOST_CYCLES;

/// An event, if it lies in a cycle from this one on, and below the end of a board's time.
pub fn due_from(from: u64, due: Option<u64>) -> Option<u64>
    ensures { result ≡ due_from from due }
{
    match due {
        Some(cycle) => {
            if from <= cycle && cycle < MOST_CYCLES {
                Some(cycle)
            } else {
                None
            }
        }
        None => None,
    }
}

/// The earlier one.
pub fn earlier(a: Option<u64>, b: Option<u64>) -> Option<u64>
    ensures { result ≡ earlier a b }
{
    match (a, b) {
        (None, b) => b,
        (Some(a), None) => Some(a),
        (Some(a), Some(b)) => Some(a.min(b)),
    }
}
