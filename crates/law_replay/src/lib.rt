//! The wave that a run wrote, replayed: the same wave, the same bytes, and the same report but for the chips.
//! There is no code here; the laws speak of the texts of `run` and of the run with players (`law_isolation`).
#![tactic(auto)]
