//! A live board of a project that is loaded.
ghost use Rattle.std.specs.Prelude.{◌≡◌, IfOk, length};
ghost use Rattle.std.specs.List.{All};
ghost use Rattle.board_model.specs.Fits.{AreInputs};
ghost use Rattle.board_build.specs.IsPlan.{IsPlan};
ghost use Rattle.chip_module.specs.Sources.{HasFewPins, pins_of};
ghost use Rattle.project_run.specs.Contents.{contents_of};
ghost use Rattle.live_start.specs.Start.{IsReady};

use crate::page::Page;
use any_part::AnyPart;
use board_build::Plan;
use live_leg::Sent;
use live_probe::Probe;
use project_run::{Contents, Loaded, load_board};
use sim_base::OutOfMemory;
use std::alloc::Global;
use std::mem::drop;

/// All that a live board has before it is opened.
#[derive(Drop)]
pub struct Ready {
    pub loaded: Loaded<AnyPart>,
    pub sent: Sent,
    pub probe: Probe,
    pub page: Page,
}

impl Ready {
    /// Loads the board of a plan with these contents, and takes the memory that the live board needs.
    pub fn load(alloc: Global, contents: Contents<'_>, plan: Plan) -> Result<Ready, OutOfMemory>
        requires plan { IsPlan (pins_of contents.chips.now) plan }
        requires few_pins { All HasFewPins contents.chips.now }
        requires inputs { AreInputs (length plan.parts) plan.inputs }
        ensures { IfOk result (IsReady (contents_of contents.entry) plan) }
    {
        let Ok(loaded) = load_board(alloc, contents, plan) else {
            return Err(OutOfMemory);
        };
        let Ok(probe) = Probe::new(alloc, loaded.board.wiring()) else {
            drop(loaded);
            return Err(OutOfMemory);
        };
        let Ok(sent) = Sent::new(alloc) else {
            drop(probe);
            drop(loaded);
            return Err(OutOfMemory);
        };
        Ok(Ready {
            loaded,
            sent,
            probe,
            page: Page::new(alloc),
        })
    }
}
