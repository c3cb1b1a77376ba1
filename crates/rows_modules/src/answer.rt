//! The answer to the bytes of a module.
ghost use Rattle.std.specs.Prelude.{◌<◌, length};

use sim_base::{Fault, Place, Refusal};
use sim_refusals::refusal_name;
use std::alloc::Global;
use std::fmt;
use std::fmt::{Display, Formatter, Write};
use wasm_decode::decode;
use wasm_validate::{Valid, validate};

/// No file is longer.
const FILE: usize = 1_048_576;

#[derive(Clone, Copy, Debug, PartialEq, Eq)]
pub enum Answer {
    Accepted,
    Refused(Refusal),
    OutOfMemory,
}

pub fn answer_to(alloc: Global, bytes: &[u8]) -> Answer {
    if bytes.len() > FILE {
        return Answer::Refused(Refusal {
            number: 10,
            place: Place::Whole,
        });
    }
    match read(alloc, bytes) {
        Ok(_) => Answer::Accepted,
        Err(Fault::Refused(refusal)) => Answer::Refused(refusal),
        Err(Fault::OutOfMemory) => Answer::OutOfMemory,
    }
}

fn read(alloc: Global, bytes: &[u8]) -> Result<Valid, Fault>
    requires { length bytes.now < 4294967295 }
{
    let module = decode(alloc, bytes)?;
    validate(alloc, module)
}

impl Display for Answer {
    fn fmt<W: Write>(&self, f: &mut Formatter<W>) -> fmt::Result {
        match self {
            Answer::Accepted => write!(f, "accepted"),
            Answer::OutOfMemory => write!(f, "out of memory"),
            Answer::Refused(refusal) => {
                let name = refusal_name(refusal.number);
                write!(f, "refused {} {name}", refusal.number)?;
                match refusal.place {
                    Place::Byte(n) => write!(f, " byte {n}"),
                    Place::Entry(section, n) => write!(f, " section {section} entry {n}"),
                    Place::Code(function, n) => write!(f, " function {function} instruction {n}"),
                    _ => Ok(()),
                }
            }
        }
    }
}
