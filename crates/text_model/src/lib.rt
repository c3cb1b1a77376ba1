//! The texts that come in and go out, as definitions: lines, Intel HEX, the wave of a run.
//! No code: readers and writers in the crates above are proved against these.
#![tactic(auto)]
