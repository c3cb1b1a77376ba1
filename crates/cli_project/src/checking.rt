//! `check FOLDER`: whether a project is accepted.
ghost use Rattle.std.specs.Prelude.{◌≡◌};
ghost use Rattle.sim_outcome_model.specs.Work.{SaidNothing};
ghost use Rattle.sim_outcome_model.specs.Happens.{Ends};
ghost use Rattle.cli_project.specs.Answer.{CheckAnswer};
ghost use Rattle.sim_io.specs.Outcomes.{outcome_of};

use crate::project::read_folder;
use sim_base::{Bench, Port};
use sim_io::{WorkEnd, write_text};
use std::alloc::Global;
use std::mem::drop;

/// Reads and checks the project of a folder, and writes `accepted` on Report, which is standard
/// output.
pub fn check<B: Bench>(alloc: Global, folder: &str, bench: &mut B) -> WorkEnd
    ensures ends { Ends (CheckAnswer folder.now) (outcome_of result) (B.outside bench.old) (B.outside bench.new) }
    ensures silent { SaidNothing (B.outside bench.old) (B.outside bench.new) }
{
    match read_folder(alloc, folder, bench) {
        Ok(work) => {
            // One call, where a drop at the end of the scope is proved list by list.
            drop(work);
            write_text(bench, Port::Report, &[b"accepted\n"])
        }
        Err(outcome) => outcome,
    }
}
