//! What is left of the bytes, and where it begins.
ghost use Rattle.std.specs.Prelude.{◌≡◌, ◌+◌, ◌^◌, ◌<◌, ◌≤◌, [], ◌∷◌, length, take};
ghost use Rattle.sim_base.specs.declared.fault.Fault.TheVariants as faults;
ghost use Rattle.sim_base.specs.declared.fault.Place.TheVariants as places;

use sim_base::{Fault, Place, Refusal};
use sim_refusals::numbers::WASM_CUT;

/// A refusal by a rule at a byte.
pub fn refused(number: u8, at: u32) -> Fault
    ensures { result ≡ faults.Refused (record { number = number; place = places.Byte at }) }
{
    Fault::Refused(Refusal {
        number,
        place: Place::Byte(at),
    })
}

/// The bytes that are left of a part, and the place of the first of them in the whole.
#[derive(Drop)]
pub struct Reader<'a> {
    pub rest: &'a [u8],
    pub at: u32,
    ghost fits: { at + length rest.now < 2 ^ 32 },
}

impl<'a> Reader<'a> {
    ghost use Rattle.std.specs.Prelude.{Bool, true};
    ghost use Rattle.wasm_binary.specs.Reads.{Decodes, DecodesAs, Took};
    ghost use Rattle.wasm_binary.specs.Form.{any_byte};
    ghost use Rattle.wasm_binary.specs.Lists.{bytes_of_length};

    /// A reader of at most so many bytes from here on.
    pub fn window(&self, size: u32) -> Reader<'a>
        ensures rest { result.rest.now ≡ take size self.now.rest.now }
        ensures at { result.at ≡ self.now.at }
    {
        let size = size as usize;
        let rest = if size < self.rest.len() {
            &self.rest[..size]
        } else {
            self.rest
        };
        Reader { rest, at: self.at }
    }

    /// Passes over so many bytes.
    pub fn skip(&mut self, count: usize)
        requires { count ≤ length self.old.rest.now }
        ensures { Took self.old self.new (take count self.old.rest.now) }
    {
        self.at += count as u32;
        self.rest = &self.rest[count..];
    }

    /// So many bytes, whatever they are.
    pub fn bytes(&mut self, count: u32) -> Result<&'a [u8], Fault>
        ensures { DecodesAs (λ s. s.now) (bytes_of_length count) result self.old self.new }
    {
        let count = count as usize;
        if self.rest.len() < count {
            return Err(refused(WASM_CUT, self.at + self.rest.len() as u32));
        }
        let bytes = &self.rest[..count];
        self.skip(count);
        Ok(bytes)
    }

    /// Any byte.
    pub fn byte(&mut self) -> Result<u8, Fault>
        ensures { Decodes any_byte result self.old self.new }
    {
        match self.rest {
            [] => Err(refused(WASM_CUT, self.at)),
            [byte, rest @ ..] => {
                let byte = *byte;
                self.rest = rest;
                self.at += 1;
                Ok(byte)
            }
        }
    }
}
