//! The documents of a project, each a kind of file.
ghost use Rattle.std.specs.Prelude.{◌≡◌, IfOk, string_bytes};
ghost use Rattle.sim_base.specs.Outside.{SamePorts};
ghost use Rattle.sim_outcome_model.specs.Work.{Got, IsFile};
ghost use Rattle.sim_io.specs.Documents.{IsRead};
ghost use Rattle.sim_io.specs.Outcomes.{outcome_of};
ghost use Rattle.project_model.specs.Work.{in_folder};

use chip_json::read_chip_file;
use diagram_json::read_diagram;
use document_model::{ChipPins, Diagram, Project};
use input_script::read_script;
use input_texts::Script;
use project_files::read_project;
use sim_base::{Bench, Display, Fault, List};
use sim_io::{Document, WorkEnd, read_document};
use std::alloc::{AllocError, Global};

/// `wokwi.toml`.
pub(crate) struct ProjectFile;

impl Document for ProjectFile {
    ghost use Rattle.document_model.specs.Project.{project_text};

    type Text = Project;

    ghost reading = { project_text };

    fn read(alloc: Global, bytes: &[u8]) -> Result<Project, Fault> {
        read_project(alloc, bytes)
    }
}

/// `diagram.json`, which is kept beside what it says.
pub(crate) struct DiagramFile;

impl Document for DiagramFile {
    ghost use Rattle.project_model.specs.Work.{drawn};

    type Text = (Diagram, List<u8>);

    ghost reading = { drawn };

    fn read(alloc: Global, bytes: &[u8]) -> Result<(Diagram, List<u8>), Fault> {
        match read_diagram(alloc, bytes) {
            Ok(diagram) => match bytes.to_vec(alloc) {
                Ok(bytes) => Ok((diagram, List::from_vec(bytes))),
                Err(_) => Err(Fault::OutOfMemory),
            },
            Err(fault) => Err(fault),
        }
    }
}

/// The file of a chip's pins and of its display.
pub(crate) struct PinsFile;

impl Document for PinsFile {
    ghost use Rattle.chip_json.specs.Display.{pins_and_display};

    type Text = (ChipPins, Option<Display>);

    ghost reading = { pins_and_display };

    fn read(alloc: Global, bytes: &[u8]) -> Result<(ChipPins, Option<Display>), Fault> {
        read_chip_file(alloc, bytes)
    }
}

/// A script, which says what is done to parts, and when.
pub(crate) struct ScriptFile;

impl Document for ScriptFile {
    ghost use Rattle.input_script.specs.Script.{script_of};

    type Text = Script;

    ghost reading = { script_of };

    fn read(alloc: Global, bytes: &[u8]) -> Result<Script, Fault> {
        read_script(alloc, bytes)
    }
}

/// The name of a file in a folder.
pub fn name_in(alloc: Global, folder: &str, path: &str) -> Result<String, AllocError>
    ensures { IfOk result (λ name. string_bytes name ≡ in_folder folder.now path.now) }
{
    format!(in alloc; "{folder}/{path}")
}

/// A file of a folder, read as one of its kind.
pub(crate) fn read_in<D: Document, B: Bench>(
    alloc: Global,
    folder: &str,
    path: &str,
    bench: &mut B,
) -> Result<D::Text, WorkEnd>
    ensures got { Got (λ d. d) outcome_of result (IsFile (in_folder folder.now path.now) D.reading) (B.outside bench.old) (B.outside bench.new) }
    ensures ports { SamePorts (B.outside bench.old) (B.outside bench.new) }
    ensures read { IfOk result (IsRead D.reading) }
{
    match name_in(alloc, folder, path) {
        Ok(name) => read_document::<D, B>(alloc, name.as_str(), bench),
        Err(_) => Err(WorkEnd::OutOfMemory),
    }
}
