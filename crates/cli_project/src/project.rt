//! A project, from its folder, with a script and a wave.
ghost use Rattle.std.specs.Prelude.{◌≡◌, ◌⊎◌, ◌≤◌, ℕ, List, None, IfOk, length};
ghost use Rattle.std.specs.List.{All};
ghost use Rattle.std.specs.Option.{option_map};
ghost use Rattle.sim_base.specs.Outside.{Outside, SamePorts};
ghost use Rattle.sim_outcome_model.specs.Stop.{Refused};
ghost use Rattle.sim_outcome_model.specs.Outcome as ends;
ghost use Rattle.sim_outcome_model.specs.Work.{Got};
ghost use Rattle.board_model.specs.Fits.{AreInputs};
ghost use Rattle.board_build.specs.IsPlan.{IsPlan};
ghost use Rattle.chip_module.specs.Sources.{HasFewPins, pins_of};
ghost use Rattle.sim_io.specs.Outcomes.{outcome_of};
ghost use Rattle.project_model.specs.Work.{file_of_rule, ScriptIn, WaveIn, PlanIn, BehindChips, BehindDiagram};
ghost use Rattle.project_model.specs.Work.{BehindFirmware, BehindProject, WorkIn};
ghost use Rattle.cli_project.specs.Works.{IsRising, IsSound, cycles_of, planned, script_path, wave_path, work_of};

use crate::chips::read_chips;
use crate::documents::{DiagramFile, ProjectFile, ScriptFile, name_in, read_in};
use board_build::{Plan, build};
use chip_module::{ChipSource, pins_of};
use document_model::{Diagram, Project};
use input_texts::Script;
use sim_base::{Bench, Fault, Flash, List, Refusal};
use sim_io::{HexFile, Stop, WorkEnd, read_document, read_within, stopped};
use sim_refusals::numbers::SCRIPT_PART;
use std::alloc::Global;
use std::mem::drop;

/// What the project's file says, the firmware, the bytes of the diagram, the chips in the order of the project, the plan of its
/// board, and the bytes of a wave.
#[derive(Drop)]
pub struct Work {
    pub project: Project,
    pub flash: Flash,
    pub diagram: List<u8>,
    pub chips: List<ChipSource>,
    pub plan: Plan,
    pub wave: Vec<u8>,
}

/// A project that is to be run: its folder, and the file of the script that acts on its board, if one is named.
#[derive(Clone, Copy)]
pub struct ScriptedProject<'a> {
    pub folder: &'a str,
    pub script: Option<&'a str>,
}

/// Where a work is read: a project and its script, and the file of a wave, if one is named.
#[derive(Clone, Copy)]
struct Paths<'a> {
    scripted: ScriptedProject<'a>,
    wave: Option<&'a str>,
}

/// The end of the work by a rule of the board, with the file that the rule names; out of memory where
/// that name has no room.
fn refused_by_rule(alloc: Global, scripted: ScriptedProject<'_>, refusal: Refusal) -> WorkEnd
    ensures { (outcome_of result ≡ ends.Stopped (Refused (file_of_rule scripted.entry.folder.now (script_path scripted.entry) refusal) refusal))
        ⊎ (outcome_of result ≡ ends.OutOfMemory) }
{
    match scripted.script {
        Some(name) if refusal.number == SCRIPT_PART => {
            stopped(alloc, name, Stop::Refused(refusal))
        }
        _ => match name_in(alloc, scripted.folder, "diagram.json") {
            Ok(name) => stopped(alloc, name.as_str(), Stop::Refused(refusal)),
            Err(_) => WorkEnd::OutOfMemory,
        },
    }
}

/// The plan of a project, its diagram, its chips and its script, or the end of the work by a rule of the board, which names the
/// script, if it is named, or the folder's diagram.
pub fn plan_board(
    alloc: Global,
    scripted: ScriptedProject<'_>,
    project: &Project,
    diagram: &Diagram,
    chips: &[ChipSource],
    rows: &Script,
) -> Result<Plan, WorkEnd>
    requires chips { length project.now.chips ≤ 8 }
    requires each { length chips.now ≡ length project.now.chips }
    requires pins { All HasFewPins chips.now }
    requires parts { length diagram.now.parts ≤ 64 }
    requires rising { IsRising 0 (cycles_of rows.now) }
    ensures got { (a : Outside) → Got (λ p. p) outcome_of result
        (PlanIn scripted.entry.folder.now (script_path scripted.entry) project.now diagram.now chips.now rows.now) a a }
    ensures plan { IfOk result (λ plan. IsPlan (pins_of chips.now) plan) }
    ensures inputs { IfOk result (λ plan. AreInputs (length plan.parts) plan.inputs) }
{
    let Ok(pins) = pins_of(alloc, chips) else {
        return Err(WorkEnd::OutOfMemory);
    };
    match build(alloc, project, diagram, pins.as_slice(), rows) {
        Ok(plan) => Ok(plan),
        Err(Fault::Refused(refusal)) => Err(refused_by_rule(alloc, scripted, refusal)),
        Err(Fault::OutOfMemory) => Err(WorkEnd::OutOfMemory),
    }
}

/// The lines of a script, none where no script is named.
fn read_script_of<B: Bench>(
    alloc: Global,
    script: Option<&str>,
    bench: &mut B,
) -> Result<Script, WorkEnd>
    ensures got { Got (λ s. s) outcome_of result (ScriptIn (option_map (λ s. s.now) script.entry))
        (B.outside bench.old) (B.outside bench.new) }
    ensures ports { SamePorts (B.outside bench.old) (B.outside bench.new) }
    ensures rising { IfOk result (λ rows. IsRising 0 (cycles_of rows)) }
{
    match script {
        Some(name) => read_document::<ScriptFile, B>(alloc, name, bench),
        None => Ok(List::new(alloc)),
    }
}

/// The bytes of a wave, none where no wave is named.
fn read_wave_of<B: Bench>(
    alloc: Global,
    wave: Option<&str>,
    bench: &mut B,
) -> Result<Vec<u8>, WorkEnd>
    ensures got { Got (λ w. w.items) outcome_of result (WaveIn (option_map (λ s. s.now) wave.entry))
        (B.outside bench.old) (B.outside bench.new) }
    ensures ports { SamePorts (B.outside bench.old) (B.outside bench.new) }
    ensures short { IfOk result (λ w. length w.items ≤ 16777216) }
{
    match wave {
        Some(name) => match read_within(alloc, 16_777_216, name, bench) {
            Ok(bytes) => Ok(bytes),
            Err(stop) => Err(stopped(alloc, name, stop)),
        },
        None => Ok(Vec::new(alloc)),
    }
}

/// The script, the wave, and then the rules of the board: the plan, and the bytes of the wave.
fn read_plan<B: Bench>(
    alloc: Global,
    paths: Paths<'_>,
    project: &Project,
    diagram: &Diagram,
    chips: &[ChipSource],
    bench: &mut B,
) -> Result<(Plan, Vec<u8>), WorkEnd>
    requires chips { length project.now.chips ≤ 8 }
    requires each { length chips.now ≡ length project.now.chips }
    requires pins { All HasFewPins chips.now }
    requires parts { length diagram.now.parts ≤ 64 }
    ensures got { (flash bytes : List ℕ) → Got (λ r. planned project.now flash bytes chips.now r.0 r.1.items) outcome_of result
        (BehindChips paths.entry.scripted.folder.now (script_path paths.entry.scripted) (wave_path paths.entry)
        project.now flash (diagram.now, bytes) chips.now)
        (B.outside bench.old) (B.outside bench.new) }
    ensures ports { SamePorts (B.outside bench.old) (B.outside bench.new) }
    ensures sound { (flash bytes : List ℕ) → IfOk result (λ r. IsSound (planned project.now flash bytes chips.now r.0 r.1.items)) }
{
    let rows = read_script_of(alloc, paths.scripted.script, bench)?;
    let wave = read_wave_of(alloc, paths.wave, bench)?;
    let plan = plan_board(alloc, paths.scripted, project, diagram, chips, &rows)?;
    Ok((plan, wave))
}

/// What comes after the chips.
fn read_behind_chips<B: Bench>(
    alloc: Global,
    paths: Paths<'_>,
    project: Project,
    flash: Flash,
    drawn: (Diagram, List<u8>),
    chips: List<ChipSource>,
    bench: &mut B,
) -> Result<Work, WorkEnd>
    requires chips { length project.chips ≤ 8 }
    requires each { length chips ≡ length project.chips }
    requires pins { All HasFewPins chips }
    requires parts { length drawn.0.parts ≤ 64 }
    ensures got { Got work_of outcome_of result
        (BehindChips paths.entry.scripted.folder.now (script_path paths.entry.scripted) (wave_path paths.entry) project flash drawn chips)
        (B.outside bench.old) (B.outside bench.new) }
    ensures ports { SamePorts (B.outside bench.old) (B.outside bench.new) }
    ensures sound { IfOk result (λ w. IsSound (work_of w)) }
{
    let (diagram, bytes) = drawn;
    let read = read_plan(alloc, paths, &project, &diagram, chips.as_slice(), bench);
    drop(diagram);
    match read {
        Ok((plan, wave)) => Ok(Work {
            project,
            flash,
            diagram: bytes,
            chips,
            plan,
            wave,
        }),
        Err(end) => {
            // One call each, where a drop at the end of the scope is proved list by list.
            drop(chips);
            drop(project);
            Err(end)
        }
    }
}

/// The chips, and what comes after them.
fn read_behind_diagram<B: Bench>(
    alloc: Global,
    paths: Paths<'_>,
    project: Project,
    flash: Flash,
    drawn: (Diagram, List<u8>),
    bench: &mut B,
) -> Result<Work, WorkEnd>
    requires chips { length project.chips ≤ 8 }
    requires parts { length drawn.0.parts ≤ 64 }
    ensures got { Got work_of outcome_of result
        (BehindDiagram paths.entry.scripted.folder.now (script_path paths.entry.scripted) (wave_path paths.entry) project flash drawn)
        (B.outside bench.old) (B.outside bench.new) }
    ensures ports { SamePorts (B.outside bench.old) (B.outside bench.new) }
    ensures sound { IfOk result (λ w. IsSound (work_of w)) }
{
    match read_chips(
        alloc,
        paths.scripted.folder,
        project.chips.as_slice(),
        bench,
    ) {
        Ok(chips) => read_behind_chips(alloc, paths, project, flash, drawn, chips, bench),
        Err(end) => {
            drop(drawn);
            drop(project);
            Err(end)
        }
    }
}

/// The diagram, and what comes after it.
fn read_behind_firmware<B: Bench>(
    alloc: Global,
    paths: Paths<'_>,
    project: Project,
    flash: Flash,
    bench: &mut B,
) -> Result<Work, WorkEnd>
    requires chips { length project.chips ≤ 8 }
    ensures got { Got work_of outcome_of result
        (BehindFirmware paths.entry.scripted.folder.now (script_path paths.entry.scripted) (wave_path paths.entry) project flash)
        (B.outside bench.old) (B.outside bench.new) }
    ensures ports { SamePorts (B.outside bench.old) (B.outside bench.new) }
    ensures sound { IfOk result (λ w. IsSound (work_of w)) }
{
    match read_in::<DiagramFile, B>(alloc, paths.scripted.folder, "diagram.json", bench) {
        Ok(drawn) => read_behind_diagram(alloc, paths, project, flash, drawn, bench),
        Err(end) => {
            drop(project);
            Err(end)
        }
    }
}

/// The firmware, and what comes after it.
fn read_behind_project<B: Bench>(
    alloc: Global,
    paths: Paths<'_>,
    project: Project,
    bench: &mut B,
) -> Result<Work, WorkEnd>
    requires chips { length project.chips ≤ 8 }
    ensures got { Got work_of outcome_of result
        (BehindProject paths.entry.scripted.folder.now (script_path paths.entry.scripted) (wave_path paths.entry) project)
        (B.outside bench.old) (B.outside bench.new) }
    ensures ports { SamePorts (B.outside bench.old) (B.outside bench.new) }
    ensures sound { IfOk result (λ w. IsSound (work_of w)) }
{
    match read_in::<HexFile, B>(
        alloc,
        paths.scripted.folder,
        project.firmware.as_str(),
        bench,
    ) {
        Ok(flash) => read_behind_firmware(alloc, paths, project, flash, bench),
        Err(end) => {
            drop(project);
            Err(end)
        }
    }
}

/// The work that a folder, a script and a wave hold: the project file, the firmware, the diagram, of each chip
/// its module and its pins, the script and the wave, read in this order, each checked before the next, and then the rules of the board.
pub fn read_work<B: Bench>(
    alloc: Global,
    scripted: ScriptedProject<'_>,
    wave: Option<&str>,
    bench: &mut B,
) -> Result<Work, WorkEnd>
    ensures got { Got work_of outcome_of result
        (WorkIn scripted.entry.folder.now (script_path scripted.entry) (option_map (λ s. s.now) wave.entry))
        (B.outside bench.old) (B.outside bench.new) }
    ensures ports { SamePorts (B.outside bench.old) (B.outside bench.new) }
    ensures sound { IfOk result (λ w. IsSound (work_of w)) }
{
    let project = read_in::<ProjectFile, B>(alloc, scripted.folder, "wokwi.toml", bench)?;
    read_behind_project(alloc, Paths { scripted, wave }, project, bench)
}

/// The work that a folder alone holds, without a script and a wave.
pub fn read_folder<B: Bench>(alloc: Global, folder: &str, bench: &mut B) -> Result<Work, WorkEnd>
    ensures got { Got work_of outcome_of result (WorkIn folder.now None None) (B.outside bench.old) (B.outside bench.new) }
    ensures ports { SamePorts (B.outside bench.old) (B.outside bench.new) }
    ensures sound { IfOk result (λ w. IsSound (work_of w)) }
{
    let scripted = ScriptedProject {
        folder,
        script: None,
    };
    read_work(alloc, scripted, None, bench)
}
