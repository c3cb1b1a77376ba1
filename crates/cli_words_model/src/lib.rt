//! What the words of the command line ask for, as definitions: the grammar of the words after a
//! command, and the request that they make.
#![tactic(auto)]
