//! The definitions of a board: nets, the levels of nets, the steps of a board and what a run shows.
//! There is no code here; each crate that computes one of these cites it in its contract.
#![tactic(auto)]
