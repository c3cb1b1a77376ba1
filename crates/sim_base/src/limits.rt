//! Limits of the simulator that more than one crate names.

/// How many cycles a command's words can ask for, and the last that a script or a wave can name: 10 s of 62.5 ns each
/// (profile).
pub const LONGEST_RUN: u32 = 160_000_000;

/// The end of a board's time, 7.2 days: a cycle that comes is below it. The time of such a cycle in a wave, 625 for each
/// cycle, has at most 16 digits.
pub const MOST_CYCLES: u64 = 10_000_000_000_000;
