//! Requests of interrupts.
ghost use Rattle.std.specs.Prelude.{◌≡◌, ◌<◌, ◌≤◌, ℕ, List, All, min};
ghost use Rattle.avr_unit.specs.UnitMachine.{asked, least};

/// How many vectors there are; as a vector, none.
pub const VECTORS: u8 = 26;

/// A vector by its number, with what enables it and its flag (data sheet, "Reset and Interrupt Vectors").
#[derive(Clone, Copy, Debug, PartialEq, Eq)]
pub struct Request {
    pub vector: u8,
    pub enabled: bool,
    pub flag: bool,
}

// Its vector where it is enabled and flagged, and else none.
#[inline]
fn asked(request: &Request) -> u8
    ensures { result ≡ asked request.now }
{
    if request.enabled & request.flag {
        request.vector
    } else {
        VECTORS
    }
}

/// The least vector that is enabled and flagged, or `VECTORS` where none is.
#[inline]
pub fn least(requests: &[Request]) -> u8
    ensures { result ≡ least requests.now }
{
    let mut vector = VECTORS;
    let mut i = requests.len();
    while i > 0 {
        i -= 1;
        vector = asked(&requests[i]).min(vector);
    }
    vector
}
