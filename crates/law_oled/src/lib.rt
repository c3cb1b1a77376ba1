//! The law of a small OLED: what it shows is the picture of the bytes that were written to its address on its own two lines.
//! There is no code here; the laws speak of the definitions alone.
#![tactic(auto)]
