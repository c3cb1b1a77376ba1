//! The environment over the real system: files, standard input, standard output and standard error.
//! It tells no content, so over it only causes, statuses and safety are claimed.
//! A call fails exactly at an error of the system, but a file that is not there is missing.
#![tactic(auto)]

mod copying;
mod lines;
mod real_bench;

pub use real_bench::RealBench;
