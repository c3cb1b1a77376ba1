//! A project file as a TOML document.
ghost use Rattle.std.specs.Prelude.{◌≡◌};
ghost use Rattle.sim_base.specs.Reads.{Reads};
ghost use Rattle.toml.specs.View.{view};
ghost use Rattle.document_model.specs.Project.{firmware_of, is_one, project_of, project_text};
ghost use Rattle.document_model.specs.Toml.{toml_document};

use crate::chips::read_chips;
use crate::refusals::{not_shaped, not_toml};
use document_model::Project;
use sim_base::{Fault, Place, Text};
use std::alloc::Global;
use toml::Value;

fn read_document(alloc: Global, bytes: &[u8]) -> Result<Value, Fault>
    ensures { Reads view result (toml_document bytes.now) }
{
    match toml::table_from_slice(alloc, bytes) {
        Ok(table) => Ok(Value::Table(table)),
        Err(error) => if error.is_memory() {
            Err(Fault::OutOfMemory)
        } else {
            Err(not_toml())
        },
    }
}

fn is_whole_one(version: Option<i64>) -> bool
    ensures { result ≡ is_one version }
{
    version == Some(1)
}

fn read_firmware(alloc: Global, document: &Value) -> Result<Text, Fault>
    ensures { Reads (λ firmware. firmware) result (firmware_of (view document.now)) }
{
    let Some(wokwi) = document.get("wokwi") else {
        return Err(not_shaped(Place::Whole));
    };
    let Some(firmware) = wokwi.get("firmware").and_then(Value::as_str) else {
        return Err(not_shaped(Place::Whole));
    };
    if !is_whole_one(wokwi.get("version").and_then(Value::as_integer)) {
        return Err(not_shaped(Place::Whole));
    }
    Ok(Text::from_str(alloc, firmware)?)
}

fn project(alloc: Global, document: &Value) -> Result<Project, Fault>
    ensures { Reads (λ project. project) result (project_of (view document.now)) }
{
    let firmware = read_firmware(alloc, document)?;
    let chips = read_chips(alloc, document)?;
    Ok(Project { firmware, chips })
}

/// The project of a `wokwi.toml`. Keys that no rule names are passed over.
/// Refuses with 30 TomlText at Whole, and with 31 TomlShape at Whole, or at the Chip that fails.
pub fn read_project(alloc: Global, bytes: &[u8]) -> Result<Project, Fault>
    ensures { Reads (λ project. project) result (project_text bytes.now) }
{
    let document = read_document(alloc, bytes)?;
    project(alloc, &document)
}
