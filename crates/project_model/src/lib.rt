//! What the files of a project mean, as definitions: read in order, each checked before the next, and then the
//! rules of the board.
#![tactic(auto)]
