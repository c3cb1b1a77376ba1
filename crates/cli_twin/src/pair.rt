//! The projects of two folders.
ghost use Rattle.std.specs.Prelude.{◌≡◌, ◌⊎◌, IfOk};
ghost use Rattle.sim_base.specs.Outside.{Outside, SamePorts};
ghost use Rattle.sim_base.specs.declared.fault.Place.TheVariants as places;
ghost use Rattle.sim_refusals.specs.Refusals.{TwinDiffers};
ghost use Rattle.sim_outcome_model.specs.Stop.{Refused};
ghost use Rattle.sim_outcome_model.specs.Outcome as ends;
ghost use Rattle.sim_outcome_model.specs.Work.{Got, Is};
ghost use Rattle.project_model.specs.Work.{in_folder};
ghost use Rattle.sim_io.specs.Outcomes.{outcome_of};
ghost use Rattle.cli_project.specs.Works.{IsSound, work_of};
ghost use Rattle.cli_twin.specs.Pairs.{IsReady, pair_of};
ghost use Rattle.cli_twin.specs.Shared.{PairIn, other_path, paired};

use crate::sharing::other_path;
use cli_project::{Work, name_in, read_folder};
use sim_base::{Bench, Place, Refusal};
use sim_io::{Stop, WorkEnd, stopped};
use sim_refusals::numbers::TWIN_DIFFERS;
use std::alloc::Global;
use std::mem::drop;

/// A project, and its twin.
#[derive(Drop)]
pub(crate) struct Pair {
    pub(crate) one: Work,
    pub(crate) other: Work,
}

/// The end of the work by a file of a folder that differs; out of memory where its name has no room.
fn differs(alloc: Global, folder: &str, path: &str) -> WorkEnd
    ensures { (outcome_of result ≡ ends.Stopped (Refused (in_folder folder.now path.now) (record { number = TwinDiffers; place = places.Whole })))
        ⊎ (outcome_of result ≡ ends.OutOfMemory) }
{
    let refusal = Refusal {
        number: TWIN_DIFFERS,
        place: Place::Whole,
    };
    match name_in(alloc, folder, path) {
        Ok(name) => stopped(alloc, name.as_str(), Stop::Refused(refusal)),
        Err(_) => WorkEnd::OutOfMemory,
    }
}

/// Two projects as a pair, or the first file of the other's folder that differs.
fn make_pair(alloc: Global, folder: &str, one: Work, other: Work) -> Result<Pair, WorkEnd>
    requires sound_one { IsSound (work_of one) }
    requires sound_other { IsSound (work_of other) }
    ensures got { (a : Outside) → Got pair_of outcome_of result
        (Is (λ files. paired folder.now (record { one = work_of one; other = work_of other }) (other_path (work_of one) (work_of other)))) a a }
    ensures ready { IfOk result IsReady }
{
    match other_path(&one, &other) {
        Some(path) => {
            // Each drop is one call, where one at the end of the scope is proved field by field.
            let end = differs(alloc, folder, path);
            drop((one, other));
            Err(end)
        }
        None => Ok(Pair { one, other }),
    }
}

/// The project of a folder whole, then that of the other, and then whether they are twins.
pub(crate) fn read_pair<B: Bench>(
    alloc: Global,
    folder: &str,
    other: &str,
    bench: &mut B,
) -> Result<Pair, WorkEnd>
    ensures got { Got pair_of outcome_of result (PairIn folder.now other.now) (B.outside bench.old) (B.outside bench.new) }
    ensures ports { SamePorts (B.outside bench.old) (B.outside bench.new) }
    ensures ready { IfOk result IsReady }
{
    let one = read_folder(alloc, folder, bench)?;
    match read_folder(alloc, other, bench) {
        Ok(twin) => make_pair(alloc, other, one, twin),
        Err(end) => {
            drop(one);
            Err(end)
        }
    }
}
