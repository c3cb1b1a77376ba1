//! Two projects that differ in the modules, attributes and displays of their chips alone are boards that differ in these alone.
//! There is no code here; the law speaks of the definitions of reading a project and of two worlds.
#![tactic(auto)]
