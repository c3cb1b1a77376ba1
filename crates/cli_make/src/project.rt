//! The generated project, checked as one that is read.
ghost use Rattle.std.specs.Prelude.{◌≡◌, ◌≤◌, ◌∷◌, [], length, IfOk};
ghost use Rattle.sim_base.specs.Outside.{Outside};
ghost use Rattle.sim_outcome_model.specs.Work.{Got};
ghost use Rattle.board_make.specs.Board.{chip_file};
ghost use Rattle.chip_module.specs.Sources.{HasFewPins};
ghost use Rattle.project_model.specs.Work.{in_folder};
ghost use Rattle.cli_project.specs.Works.{IsSound, work_of};
ghost use Rattle.sim_io.specs.Outcomes.{outcome_of};
ghost use Rattle.cli_make.specs.Answer.{BehindModule, JudgedBytes, MadeIn, folder};

use board_make::{Made, make};
use chip_module::{ChipModule, ChipSource};
use cli_project::{ScriptedProject, Work, plan_board};
use document_model::{Diagram, Project};
use sim_base::{Fault, Flash, List, OutOfMemory};
use sim_io::{Stop, WorkEnd, stopped};
use std::alloc::Global;

/// The module of the chip.
fn judged(alloc: Global, bytes: Vec<u8>) -> Result<ChipModule, WorkEnd>
    requires { length bytes.items ≤ 1048576 }
    ensures { (a : Outside) → Got (λ m. m) outcome_of result (JudgedBytes (in_folder folder chip_file.binary) bytes.items) a a }
{
    match ChipModule::read(alloc, bytes) {
        Ok(module) => Ok(module),
        Err(Fault::Refused(refusal)) => Err(stopped(
            alloc,
            "make/inverter.wasm",
            Stop::Refused(refusal),
        )),
        Err(Fault::OutOfMemory) => Err(WorkEnd::OutOfMemory),
    }
}

/// The chips of a project that has one.
fn only(alloc: Global, chip: ChipSource) -> Result<List<ChipSource>, OutOfMemory>
    ensures { IfOk result (λ chips. chips ≡ chip ∷ []) }
{
    let mut chips = List::new(alloc);
    chips.push(chip)?;
    Ok(chips)
}

/// The plan behind the module of the one chip, or the end of the work by a rule of the board.
fn behind_module(
    alloc: Global,
    project: Project,
    flash: Flash,
    diagram: &Diagram,
    chip: ChipSource,
) -> Result<Work, WorkEnd>
    requires chips { length project.chips ≡ 1 }
    requires parts { length diagram.now.parts ≤ 64 }
    requires few { HasFewPins chip }
    ensures got { (a : Outside) → Got work_of outcome_of result (BehindModule project flash diagram.now chip) a a }
    ensures sound { IfOk result (λ w. IsSound (work_of w)) }
{
    let Ok(chips) = only(alloc, chip) else {
        return Err(WorkEnd::OutOfMemory);
    };
    let rows = List::new(alloc);
    let scripted = ScriptedProject {
        folder: "make",
        script: None,
    };
    match plan_board(alloc, scripted, &project, diagram, chips.as_slice(), &rows) {
        Ok(plan) => {
            let bytes = List::new(alloc);
            let wave = Vec::new(alloc);
            Ok(Work {
                project,
                flash,
                diagram: bytes,
                chips,
                plan,
                wave,
            })
        }
        Err(end) => Err(end),
    }
}

/// The firmware, the chip and the plan of a seed's board, or the end of the work by a rule that they break.
pub(crate) fn made_work(alloc: Global, seed: u32) -> Result<Work, WorkEnd>
    ensures got { (a : Outside) → Got work_of outcome_of result (MadeIn seed) a a }
    ensures sound { IfOk result (λ w. IsSound (work_of w)) }
{
    let Ok(made) = make(alloc, seed) else {
        return Err(WorkEnd::OutOfMemory);
    };
    let Made {
        project,
        flash,
        diagram,
        pins,
        module,
    } = made;
    match judged(alloc, module) {
        Ok(binary) => {
            let chip = ChipSource {
                binary,
                pins,
                display: None,
            };
            behind_module(alloc, project, flash, &diagram, chip)
        }
        Err(end) => Err(end),
    }
}
