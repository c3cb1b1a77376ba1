//! A live board of a project, and its start.
ghost use Rattle.std.specs.Prelude.{◌≡◌, [], true};
ghost use Rattle.board_build.specs.declared.plan.Plan.{Plan};
ghost use Rattle.any_part.specs.Start.{Contents as Given};
ghost use Rattle.live_model.specs.Standing.{opened};
ghost use Rattle.live_start.specs.Start.{IsReady};
ghost use Rattle.live_project.specs.Start.{setup_of};
ghost use Rattle.live_project.specs.Goes.{IsAt};

use any_part::AnyPart;
use board_build::PlanPart;
use board_live::LiveBoard;
use live_leg::{Talk, begin};
use live_probe::Probe;
use live_start::{Page, Ready};
use part_law::Part;
use project_run::Loaded;
use sim_base::{Bench, List, Port};
use std::snapshot::Snapshot;

/// A board that goes on as far as requests tell, and what was asked of it so far.
#[derive(Drop)]
pub struct Live {
    pub(crate) talk: Talk<AnyPart>,
    pub(crate) parts: List<PlanPart>,
    pub(crate) probe: Probe,
    /// Whether a wave is written.
    pub(crate) wave: bool,
    pub(crate) page: Page,
}

/// What comes after an answer.
#[derive(Clone, Copy, Debug, PartialEq, Eq)]
pub enum Next {
    Request,
    Quit,
    WriteFailed,
}

impl Live {
    /// A live board at cycle 0, whose wave is wanted or not. `start` is the bench as it is lent: it has no bytes, and clauses alone
    /// read it.
    pub fn open<B: Bench>(ready: Ready, wave: bool, bench: &mut B, start: &Snapshot<B>) -> Live
        requires ready { (has : Given) × (plan : Plan) × IsReady has plan ready }
        requires lent { start.now.value ≡ bench.old }
        requires opened { wave ≡ true → (B.outside bench.old).opened Port.Wave ≡ true }
        ensures at { (has : Given) (plan : Plan) → IsReady has plan ready
            → IsAt ⟦<AnyPart as Part>⟧ (setup_of has plan wave) result (opened plan.inputs) [] (B.outside start.now.value) (B.outside bench.new) }
        ensures requests { (B.outside bench.new).requests ≡ (B.outside bench.old).requests }
    {
        let Ready {
            loaded,
            sent,
            probe,
            page,
        } = ready;
        let Loaded { board, parts, head } = loaded;
        let talk = begin(LiveBoard::open(board), head, sent, wave, bench, start);
        Live {
            talk,
            parts,
            probe,
            wave,
            page,
        }
    }
}
