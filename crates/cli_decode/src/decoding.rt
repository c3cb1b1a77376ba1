//! `decode WAVE` with the words of a bus.
ghost use Rattle.std.specs.Prelude.{◌≡◌, length, IfOk};
ghost use Rattle.std.specs.Option.{option_map};
ghost use Rattle.sim_base.specs.Outside.{SameOthers, SamePorts};
ghost use Rattle.sim_outcome_model.specs.Happens.{Ends};
ghost use Rattle.sim_outcome_model.specs.Stop.{printed};
ghost use Rattle.sim_outcome_model.specs.Work.{Got, RanOn, SaidNothing};
ghost use Rattle.wave_decode.specs.Frames.{AreHeard, frames_text, IsBus, line_count};
ghost use Rattle.sim_io.specs.Outcomes.{outcome_of, stop_of};
ghost use Rattle.cli_decode.specs.Answer.{DecodeAnswer, LevelsIn};
ghost use Rattle.wave_decode.specs.Levels.{names_given};

use sim_base::{Bench, Fault, Port, WriteEnd};
use sim_io::{Stop, WorkEnd, read_within, stopped};
use std::alloc::Global;
use wave_decode::{Bus, LevelRows, frames, read_levels};

/// The levels of the variables of one name or of two in a wave.
fn read_lines<B: Bench>(
    alloc: Global,
    wave: &str,
    first: &str,
    second: Option<&str>,
    bench: &mut B,
) -> Result<LevelRows, Stop>
    ensures got { Got (λ l. l) (stop_of wave.now) result (LevelsIn wave.now first.now (option_map (λ s. s.now) second.entry))
        (B.outside bench.old) (B.outside bench.new) }
    ensures ports { SamePorts (B.outside bench.old) (B.outside bench.new) }
    ensures heard { IfOk result AreHeard }
    ensures lines { IfOk result (λ l. length l.rows ≡ names_given (option_map (λ s. s.now) second.entry)) }
{
    let bytes = read_within(alloc, 16_777_216, wave, bench)?;
    match read_levels(alloc, &bytes, first, second) {
        Ok(levels) => Ok(levels),
        Err(Fault::Refused(refusal)) => Err(Stop::Refused(refusal)),
        Err(Fault::OutOfMemory) => Err(Stop::OutOfMemory),
    }
}

/// The same, or the end of the work by the wave.
fn read_wave_lines<B: Bench>(
    alloc: Global,
    wave: &str,
    first: &str,
    second: Option<&str>,
    bench: &mut B,
) -> Result<LevelRows, WorkEnd>
    ensures got { Got (λ l. l) outcome_of result (LevelsIn wave.now first.now (option_map (λ s. s.now) second.entry))
        (B.outside bench.old) (B.outside bench.new) }
    ensures ports { SamePorts (B.outside bench.old) (B.outside bench.new) }
    ensures heard { IfOk result AreHeard }
    ensures lines { IfOk result (λ l. length l.rows ≡ names_given (option_map (λ s. s.now) second.entry)) }
{
    match read_lines(alloc, wave, first, second, bench) {
        Ok(levels) => Ok(levels),
        Err(stop) => Err(stopped(alloc, wave, stop)),
    }
}

/// Opens Report, which is standard output, and writes the lines of the frames there.
fn write_frames<B: Bench>(levels: &LevelRows, bus: Bus, bench: &mut B) -> WorkEnd
    requires bus { IsBus bus }
    requires lines { length levels.now.rows ≡ line_count bus }
    requires heard { AreHeard levels.now }
    ensures ran { RanOn Port.Report (outcome_of result) (printed (frames_text bus levels.now)) (B.outside bench.old) (B.outside bench.new) }
    ensures others { SameOthers Port.Report (B.outside bench.old) (B.outside bench.new) }
{
    match bench.open_port(Port::Report, "-") {
        WriteEnd::Ok => match frames(levels, bus, bench) {
            WriteEnd::Ok => WorkEnd::Accepted,
            WriteEnd::Failed => WorkEnd::WriteFailed,
        },
        WriteEnd::Failed => WorkEnd::WriteFailed,
    }
}

/// Reads the levels of the lines of a bus from a wave, and writes the lines of its frames on Report,
/// which is standard output.
pub fn decode<B: Bench>(
    alloc: Global,
    wave: &str,
    first: &str,
    second: Option<&str>,
    bus: Bus,
    bench: &mut B,
) -> WorkEnd
    requires bus { IsBus bus }
    requires names { names_given (option_map (λ s. s.now) second) ≡ line_count bus }
    ensures ends { Ends (DecodeAnswer wave.now first.now (option_map (λ s. s.now) second.entry) bus) (outcome_of result)
        (B.outside bench.old) (B.outside bench.new) }
    ensures silent { SaidNothing (B.outside bench.old) (B.outside bench.new) }
{
    match read_wave_lines(alloc, wave, first, second, bench) {
        Ok(levels) => write_frames(&levels, bus, bench),
        Err(outcome) => outcome,
    }
}
