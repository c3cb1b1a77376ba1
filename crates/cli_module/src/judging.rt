//! `module FILE`: the bytes of a file, as the module of a chip.
ghost use Rattle.std.specs.Prelude.{◌≡◌};
ghost use Rattle.sim_base.specs.Outside.{SamePorts};
ghost use Rattle.sim_outcome_model.specs.Work.{Got, JudgedFile, SaidNothing};
ghost use Rattle.sim_outcome_model.specs.Happens.{Ends};
ghost use Rattle.chip_module.specs.Binary.{Judges};
ghost use Rattle.sim_io.specs.Outcomes.{outcome_of};
ghost use Rattle.cli_module.specs.Answer.{ModuleAnswer};

use chip_module::ChipModule;
use sim_base::{Bench, Fault, Port};
use sim_io::{Stop, WorkEnd, read_bytes, stopped, write_text};
use std::alloc::Global;

/// The module of a file of at most 1,048,576 bytes, or the end of the work by it.
pub fn read_module<B: Bench>(
    alloc: Global,
    name: &str,
    bench: &mut B,
) -> Result<ChipModule, WorkEnd>
    ensures got { Got (λ m. m) outcome_of result (JudgedFile name.now Judges) (B.outside bench.old) (B.outside bench.new) }
    ensures ports { SamePorts (B.outside bench.old) (B.outside bench.new) }
{
    match read_bytes(alloc, name, bench) {
        Ok(bytes) => match ChipModule::read(alloc, bytes) {
            Ok(module) => Ok(module),
            Err(Fault::Refused(refusal)) => Err(stopped(alloc, name, Stop::Refused(refusal))),
            Err(Fault::OutOfMemory) => Err(WorkEnd::OutOfMemory),
        },
        Err(stop) => Err(stopped(alloc, name, stop)),
    }
}

/// Reads and judges the module of a file, and writes `accepted` on Report, which is standard output.
pub fn check_module<B: Bench>(alloc: Global, name: &str, bench: &mut B) -> WorkEnd
    ensures ends { Ends (ModuleAnswer name.now) (outcome_of result) (B.outside bench.old) (B.outside bench.new) }
    ensures silent { SaidNothing (B.outside bench.old) (B.outside bench.new) }
{
    match read_module(alloc, name, bench) {
        Ok(_) => write_text(bench, Port::Report, &[b"accepted\n"]),
        Err(outcome) => outcome,
    }
}
