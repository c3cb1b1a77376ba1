//! A wave that a writer wrote is read back: what each pin drove, as far as two variables can show it.
//! There is no code here; the laws speak of the definitions of both directions alone.
#![tactic(auto)]
