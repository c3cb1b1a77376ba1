//! What a live board of a project answers: a function of the project's board and of the requests so far (`specs/Talk.antt`).
//! There is no code here: each crate of a live board has calls whose clauses say that they answer so.
#![tactic(auto)]
