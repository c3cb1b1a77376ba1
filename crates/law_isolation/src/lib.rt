//! Isolation: each chip of a run is a function of its own pins, and what it drives is all that the rest of the
//! board sees of it.
//! There is no code here; the laws speak of the texts that `run` writes (`project_run`).
#![tactic(auto)]
