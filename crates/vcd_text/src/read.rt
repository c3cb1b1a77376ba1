//! A wave that is read back.
ghost use Rattle.std.specs.Prelude.{◌≡◌, ◌<◌, ◌≤◌, length, IfOk};
ghost use Rattle.sim_base.specs.declared.limits.TheConstants.{LONGEST_RUN};
ghost use Rattle.sim_base.specs.Reads.{Reads};
ghost use Rattle.vcd_text.specs.Tracks.{wave_rows};

use crate::head::WaveHead;
use crate::line::{is_over, read_line};
use crate::tracks::{DriveRows, Tracks};
use sim_base::Fault;
use std::alloc::Global;
use wave_lines::{Line, Stage, after_value, behind, end_fault, refused, split_line};

/// What a wave of `n` cycles says of the first `pins` pins of a board. The text is what a `WaveWriter`
/// with this head writes, but that the values of one time may stand in any order and a value may be
/// given again; the last value of a variable at a time counts.
/// Refuses with 90 WaveHead, 91 WaveLine, 92 WaveTime, 93 WaveName and 94 WaveEnd, each at a Line from 1.
pub fn read_wave(
    alloc: Global,
    head: &WaveHead,
    pins: usize,
    n: u32,
    bytes: &[u8],
) -> Result<DriveRows, Fault>
    requires short { length bytes.now < 4294967295 }
    requires end { n ≤ LONGEST_RUN }
    ensures reads { Reads (λ rows. rows) result (wave_rows head.now.variables pins n bytes.now) }
    ensures pins { IfOk result (λ rows. length rows ≡ pins) }
{
    let variables = head.variables();
    let (mut number, mut rest) = match behind(1, head.head_bytes(), bytes) {
        Ok(found) => found,
        Err(refusal) => return Err(Fault::Refused(refusal)),
    };
    let mut tracks = Tracks::new(alloc, variables.len(), pins)?;
    let mut stage = Stage::Start;
    let mut cycle = 0;
    while let Some((line, more)) = split_line(rest) {
        match read_line(variables, n, stage, cycle, line) {
            Line::Goes(next) => stage = next,
            Line::Time(next) => {
                stage = Stage::Opened;
                cycle = next;
            }
            Line::Value(i, value) => {
                tracks.change(i, variables[i].shows, cycle, value)?;
                stage = after_value(stage);
            }
            Line::Faulty(fault) => return Err(Fault::Refused(refused(fault, number))),
        }
        rest = more;
        number += 1;
    }
    let over = is_over(n, stage, cycle);
    match end_fault(over, tracks.are_given(), number, rest) {
        None => Ok(tracks.into_rows()),
        Some(refusal) => Err(Fault::Refused(refusal)),
    }
}
