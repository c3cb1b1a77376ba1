//! What a reader answers in place of a value.
ghost use Rattle.std.specs.Prelude.{◌≡◌};
ghost use Rattle.sim_base.specs.declared.fault.OutOfMemory.{OutOfMemory};
ghost use Rattle.sim_base.specs.declared.fault.Fault.TheVariants as faults;

use std::alloc::{AllocError, AllocFailed};
use thiserror::Error;

/// Where input broke a rule. `Byte` counts from 0, the items of an `Entry` and the function and
/// instruction of a `Code` too; all else counts from 1.
#[derive(Clone, Copy, Debug, PartialEq, Eq)]
pub enum Place {
    Whole,
    Line(u32),
    Byte(u32),
    Part(u32),
    Connection(u32),
    Chip(u32),
    Import(u32),
    /// A section's number and an entry of it.
    Entry(u8, u32),
    /// A function by its index, imported ones first, and an instruction of its body.
    Code(u32, u32),
}

/// A numbered rule that input broke, and where.
#[derive(Clone, Copy, Debug, PartialEq, Eq)]
pub struct Refusal {
    pub number: u8,
    pub place: Place,
}

/// The error of a reader.
#[derive(Debug, Drop, Error)]
pub enum Fault {
    #[error("refused by rule {}", .0.number)]
    Refused(Refusal),
    #[error("out of memory")]
    OutOfMemory,
}

/// Memory ran out: the one answer that no input causes.
#[derive(Clone, Copy, Debug, PartialEq, Eq)]
pub struct OutOfMemory;

impl From<AllocError> for OutOfMemory {
    fn from(_error: AllocError) -> OutOfMemory {
        OutOfMemory
    }
}

impl<T: Drop> From<AllocFailed<T>> for OutOfMemory {
    fn from(_error: AllocFailed<T>) -> OutOfMemory {
        OutOfMemory
    }
}

impl From<OutOfMemory> for Fault {
    ghost from_gives = { λ _ e. e ≡ faults.OutOfMemory };

    fn from(_error: OutOfMemory) -> Fault {
        Fault::OutOfMemory
    }
}

impl From<AllocError> for Fault {
    ghost from_gives = { λ _ e. e ≡ faults.OutOfMemory };

    fn from(_error: AllocError) -> Fault {
        Fault::OutOfMemory
    }
}

impl<T: Drop> From<AllocFailed<T>> for Fault {
    ghost from_gives = { λ _ e. e ≡ faults.OutOfMemory };

    fn from(_error: AllocFailed<T>) -> Fault {
        Fault::OutOfMemory
    }
}
