//! Laws of what chips drive: a pin without a name drives nothing, and no pin is a wiper.
//! There is no code here; the laws speak of the definitions alone.
#![tactic(auto)]
