//! A whole module.
ghost use Rattle.std.specs.Prelude.{◌≡◌, ◌<◌, length};
ghost use Rattle.wasm_decode.specs.ModuleText.{IsDecoded, nothing, magic as magic_form, these_bytes as these_form};
ghost use Rattle.wasm_decode.specs.SectionViews.{SectionsRead, SectionsPut};
ghost use Rattle.wasm_binary.specs.Form.{byte_or, judge_tag};
ghost use Rattle.wasm_binary.specs.Reads.{Decodes};
ghost use Rattle.sim_refusals.specs.Refusals.{WasmMagic};

use crate::module::Module;
use crate::progress::Progress;
use crate::sections::section;
use sim_base::Fault;
use sim_refusals::numbers::{WASM_COUNT, WASM_MAGIC};
use std::alloc::Global;
use std::mem::drop;
use wasm_binary::{Reader, refused};

/// The magic and the version.
const MAGIC: [u8; 8] = [0x00, 0x61, 0x73, 0x6D, 0x01, 0x00, 0x00, 0x00];

/// The module of these bytes. Refuses with 60 WasmMagic to 69 WasmLimit at the byte, from 0, at which
/// the bytes break.
#[tactic(auto, using(crate::proofs::ModuleLemmas::magic_fails))]
pub fn decode(alloc: Global, bytes: &[u8]) -> Result<Module, Fault>
    requires { length bytes.now < 4294967295 }
    ensures { IsDecoded bytes.now result }
{
    let mut reader = Reader { rest: bytes, at: 0 };
    magic(&mut reader)?;
    let progress = sections(alloc, &mut reader)?;
    Ok(progress.module)
}

fn magic(reader: &mut Reader) -> Result<(), Fault>
    ensures { Decodes magic_form result reader.old reader.new }
{
    these_bytes(reader, &MAGIC)
}

fn these_bytes(reader: &mut Reader, bytes: &[u8]) -> Result<(), Fault>
    ensures { Decodes (these_form bytes.now) result reader.old reader.new }
{
    match bytes {
        [] => Ok(()),
        [first, rest @ ..] => {
            magic_byte(reader, *first)?;
            these_bytes(reader, rest)
        }
    }
}

fn magic_byte(reader: &mut Reader, wanted: u8) -> Result<(), Fault>
    ensures { Decodes (byte_or WasmMagic (judge_tag wanted WasmMagic)) result reader.old reader.new }
{
    if reader.rest.len() == 0 {
        return Err(refused(WASM_MAGIC, reader.at));
    }
    if reader.rest[0] != wanted {
        return Err(refused(WASM_MAGIC, reader.at));
    }
    reader.skip(1);
    Ok(())
}

/// All sections up to the end.
fn sections(alloc: Global, reader: &mut Reader) -> Result<Progress, Fault>
    ensures { SectionsRead result reader.old }
{
    let mut progress = Progress::new(alloc);
    match put_sections(alloc, reader, &mut progress) {
        Ok(()) => Ok(progress),
        Err(fault) => {
            // One call, where a drop at the end of the scope is proved list by list.
            drop(progress);
            Err(fault)
        }
    }
}

/// Puts all sections into their places.
fn put_sections(alloc: Global, reader: &mut Reader, progress: &mut Progress) -> Result<(), Fault>
    requires { progress.old ≡ nothing }
    ensures { SectionsPut result reader.old progress.new }
{
    while reader.rest.len() > 0 {
        let section = section(alloc, reader, progress)?;
        progress.put(section);
    }
    if progress.wants_bodies() {
        return Err(refused(WASM_COUNT, reader.at));
    }
    Ok(())
}
