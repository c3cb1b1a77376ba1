//! Rules over the entries of a section.
ghost use Rattle.std.specs.Prelude.{◌≡◌, ℕ, Bool, Some, min};
ghost use Rattle.sim_base.specs.declared.fault.Place.TheVariants as places;
ghost use Rattle.wasm_validate.specs.Rules.{first_fault as fault_form, or_then as then_form, capped};

use sim_base::{Place, Refusal};

/// A rule that an entry keeps or breaks, by itself and its place.
pub trait Rule<X> {
    ghost keeps: { Self → ℕ → X → Bool };

    fn holds(&self, i: usize, entry: &X) -> bool
        ensures { result ≡ keeps self.now i entry.now };
}

/// The first entry that breaks the rule.
pub fn first_fault<X, R: Rule<X>>(
    rule: &R,
    entries: &[X],
    number: u8,
    section: u8,
) -> Option<Refusal>
    ensures { result ≡ fault_form number section (R.keeps rule.now) 0 entries.now }
{
    for (i, entry) in entries.iter().enumerate() {
        if !rule.holds(i, entry) {
            return Some(refused(number, section, i));
        }
    }
    None
}

pub fn refused(number: u8, section: u8, i: usize) -> Refusal
    ensures { result ≡ record { number = number; place = places.Entry section (capped i) } }
{
    Refusal {
        number,
        place: Place::Entry(section, told(i)),
    }
}

/// A place as a refusal tells it.
pub fn told(i: usize) -> u32
    ensures { result ≡ capped i }
{
    i.min(0xFFFF_FFFF) as u32
}

/// The first of two that is there.
pub fn or_then(first: Option<Refusal>, second: Option<Refusal>) -> Option<Refusal>
    ensures { result ≡ then_form first second }
{
    match first {
        Some(refusal) => Some(refusal),
        None => second,
    }
}
