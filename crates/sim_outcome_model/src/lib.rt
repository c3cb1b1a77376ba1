//! How a command ends, as definitions: which file stops it, the texts on the ports, the status and the line on
//! Complaint.
#![tactic(auto)]
