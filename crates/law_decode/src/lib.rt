//! What is read of the wave of a run gives each variable its net's level, in every cycle.
//! There is no code here; the laws speak of the definitions of writing and of reading alone.
#![tactic(auto)]
