//! How the work ends.
ghost use Rattle.std.specs.Prelude.{◌≡◌, ◌⊎◌};
ghost use Rattle.sim_outcome_model.specs.Outcome.{status_of};
ghost use Rattle.sim_outcome_model.specs.Outcome as ends;
ghost use Rattle.sim_io.specs.Outcomes.{outcome_of, stop_of};

use sim_base::Refusal;
use std::alloc::Global;

/// The end of the work, with the file that it names.
#[derive(Drop)]
pub enum WorkEnd {
    Accepted,
    NoRequest,
    Missing(String),
    Refused(String, Refusal),
    ReadFailed(String),
    /// A line of requests could not be read.
    RequestFailed,
    WriteFailed,
    OutOfMemory,
}

/// Why a file ends the work.
#[derive(Clone, Copy)]
pub enum Stop {
    Missing,
    Refused(Refusal),
    ReadFailed,
    OutOfMemory,
}

/// The end of the work by a file of this name; out of memory where the name has no room.
pub fn stopped(alloc: Global, name: &str, stop: Stop) -> WorkEnd
    ensures { (outcome_of result ≡ stop_of name.now stop) ⊎ (outcome_of result ≡ ends.OutOfMemory) }
{
    let Ok(name) = String::from_str(alloc, name) else {
        return WorkEnd::OutOfMemory;
    };
    match stop {
        Stop::Missing => WorkEnd::Missing(name),
        Stop::Refused(refusal) => WorkEnd::Refused(name, refusal),
        Stop::ReadFailed => WorkEnd::ReadFailed(name),
        Stop::OutOfMemory => WorkEnd::OutOfMemory,
    }
}

/// The status with which the program ends.
pub fn status(outcome: &WorkEnd) -> u8
    ensures { result ≡ status_of (outcome_of outcome.now) }
{
    match outcome {
        WorkEnd::Accepted => 0,
        WorkEnd::NoRequest => 2,
        WorkEnd::Refused(_, _) => 3,
        WorkEnd::Missing(_) => 4,
        WorkEnd::ReadFailed(_) | WorkEnd::RequestFailed => 5,
        WorkEnd::WriteFailed => 6,
        WorkEnd::OutOfMemory => 7,
    }
}
