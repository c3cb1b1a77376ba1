//! What arithmetic says about its result.

/// The six flags of SREG that arithmetic sets. Where a group of instructions keeps a flag, it is
/// false here, and the core leaves its own as it stands.
#[derive(Clone, Copy, Debug, PartialEq, Eq)]
pub struct Flags {
    pub h: bool,
    pub s: bool,
    pub v: bool,
    pub n: bool,
    pub z: bool,
    pub c: bool,
}
