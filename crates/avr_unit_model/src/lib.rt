//! What a unit's data sheet section is stated in, as definitions: what the processor does with a unit's registers
//! cycle by cycle, and what each step leaves.
//! There is no code here; the laws of the units' data sheet sections are stated in these words.
#![tactic(auto)]
