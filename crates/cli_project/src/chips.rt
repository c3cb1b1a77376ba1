//! The chips of a project, each from its two files.
ghost use Rattle.std.specs.Prelude.{◌≡◌, ◌+◌, ◌≤◌, [], IfOk, length};
ghost use Rattle.std.specs.List.{All};
ghost use Rattle.sim_base.specs.Outside.{SamePorts};
ghost use Rattle.sim_outcome_model.specs.Work.{Got, JudgedFile};
ghost use Rattle.chip_module.specs.Binary.{Judges};
ghost use Rattle.chip_module.specs.Sources.{HasFewPins};
ghost use Rattle.sim_io.specs.Outcomes.{outcome_of};
ghost use Rattle.project_model.specs.Work.{ChipIn, ChipsAfter, PinsIn, in_folder};

use crate::documents::{PinsFile, name_in, read_in};
use chip_module::{ChipModule, ChipSource};
use cli_module::read_module;
use document_model::ChipFile;
use sim_base::{Bench, List};
use sim_io::WorkEnd;
use std::alloc::Global;
use std::mem::drop;

/// The module of a file of a folder.
fn read_binary<B: Bench>(
    alloc: Global,
    folder: &str,
    path: &str,
    bench: &mut B,
) -> Result<ChipModule, WorkEnd>
    ensures got { Got (λ m. m) outcome_of result (JudgedFile (in_folder folder.now path.now) Judges) (B.outside bench.old) (B.outside bench.new) }
    ensures ports { SamePorts (B.outside bench.old) (B.outside bench.new) }
{
    match name_in(alloc, folder, path) {
        Ok(name) => read_module(alloc, name.as_str(), bench),
        Err(_) => Err(WorkEnd::OutOfMemory),
    }
}

/// The pins of a chip and its display, after its module.
fn read_behind_binary<B: Bench>(
    alloc: Global,
    folder: &str,
    path: &str,
    binary: ChipModule,
    bench: &mut B,
) -> Result<ChipSource, WorkEnd>
    ensures got { Got (λ c. c) outcome_of result (PinsIn folder.now path.now binary) (B.outside bench.old) (B.outside bench.new) }
    ensures ports { SamePorts (B.outside bench.old) (B.outside bench.new) }
    ensures few { IfOk result HasFewPins }
{
    match read_in::<PinsFile, B>(alloc, folder, path, bench) {
        Ok(found) => Ok(ChipSource {
            binary,
            pins: found.0,
            display: found.1,
        }),
        Err(end) => {
            // One call, where a drop at the end of the scope is proved list by list.
            drop(binary);
            Err(end)
        }
    }
}

/// A chip: its module, and then its pins and its display.
fn read_chip<B: Bench>(
    alloc: Global,
    folder: &str,
    chip: &ChipFile,
    bench: &mut B,
) -> Result<ChipSource, WorkEnd>
    ensures got { Got (λ c. c) outcome_of result (ChipIn folder.now chip.now) (B.outside bench.old) (B.outside bench.new) }
    ensures ports { SamePorts (B.outside bench.old) (B.outside bench.new) }
    ensures few { IfOk result HasFewPins }
{
    let binary = read_binary(alloc, folder, chip.binary.as_str(), bench)?;
    read_behind_binary(alloc, folder, chip.json.as_str(), binary, bench)
}

/// The chips behind those that were read, each read and checked before the next.
fn read_more<B: Bench>(
    alloc: Global,
    folder: &str,
    mut read: List<ChipSource>,
    chips: &[ChipFile],
    bench: &mut B,
) -> Result<List<ChipSource>, WorkEnd>
    ensures got { Got (λ cs. cs) outcome_of result (ChipsAfter folder.now read chips.now) (B.outside bench.old) (B.outside bench.new) }
    ensures ports { SamePorts (B.outside bench.old) (B.outside bench.new) }
    ensures few { All HasFewPins read → IfOk result (All HasFewPins) }
    ensures count { IfOk result (λ cs. length cs ≡ length read + length chips.now) }
{
    match chips {
        [chip, chips @ ..] => {
            let source = read_chip(alloc, folder, chip, bench)?;
            match read.push(source) {
                Ok(()) => read_more(alloc, folder, read, chips, bench),
                Err(_) => Err(WorkEnd::OutOfMemory),
            }
        }
        [] => Ok(read),
    }
}

/// The chips of a project in its order.
pub(crate) fn read_chips<B: Bench>(
    alloc: Global,
    folder: &str,
    chips: &[ChipFile],
    bench: &mut B,
) -> Result<List<ChipSource>, WorkEnd>
    ensures got { Got (λ cs. cs) outcome_of result (ChipsAfter folder.now [] chips.now) (B.outside bench.old) (B.outside bench.new) }
    ensures ports { SamePorts (B.outside bench.old) (B.outside bench.new) }
    ensures few { IfOk result (All HasFewPins) }
    ensures count { IfOk result (λ cs. length cs ≡ length chips.now) }
{
    read_more(alloc, folder, List::new(alloc), chips, bench)
}
