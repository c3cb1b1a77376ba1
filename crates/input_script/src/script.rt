//! Lines as a script.
ghost use Rattle.std.specs.Prelude.{◌≡◌, ◌<◌, length};
ghost use Rattle.sim_base.specs.Reads.{Reads};
ghost use Rattle.input_script.specs.Script.{script_of};

use crate::action::{Line, read_line};
use input_texts::{Script, ScriptRow, next_line};
use sim_base::{Fault, List, Place, Refusal};
use std::alloc::Global;

fn refused(number: u8, line: u32) -> Fault
    ensures { result ≡ Fault.Refused (record { number = number; place = Place.Line line }) }
{
    Fault::Refused(Refusal {
        number,
        place: Place::Line(line),
    })
}

/// What a script says: the lines that act on parts, in their order. A time in `us` counts 16 cycles
/// for each, one in `cy` cycles of 62.5 ns.
/// Refuses with 80 ScriptLine, 81 ScriptOrder and 82 ScriptLimit, each at a Line from 1.
pub fn read_script(alloc: Global, bytes: &[u8]) -> Result<Script, Fault>
    requires { length bytes.now < 4294967295 }
    ensures { Reads (λ script. script) result (script_of bytes.now) }
{
    let mut rows = List::new(alloc);
    let mut last: u32 = 0;
    let mut number: u32 = 1;
    let mut rest = bytes;
    while !rest.is_empty() {
        let (line, more) = next_line(rest);
        match read_line(line, last, rows.len()) {
            Line::Passed => {}
            Line::Acts(action) => {
                last = action.cycle as u32;
                rows.push(ScriptRow {
                    line: number,
                    cycle: last,
                    part: action.part,
                    press: action.press,
                    value: action.value as u32,
                })?;
            }
            Line::Faulty(fault) => return Err(refused(fault, number)),
        }
        rest = more;
        number += 1;
    }
    Ok(rows)
}
