//! Sections.
ghost use Rattle.std.specs.Prelude.{◌≡◌, ◌-◌, false};
ghost use Rattle.wasm_decode.specs.ItemText.{imported as imported_of};
ghost use Rattle.wasm_decode.specs.SectionText.{judge_id, custom as custom_form, content as content_form, section_of as section_of_form, section as section_form};
ghost use Rattle.wasm_binary.specs.Lists.{sized as sized_form};
ghost use Rattle.wasm_binary.specs.Reads.{Decodes};

use crate::bodies::bodies;
use crate::imports::{FUNCTIONS, imported, imports};
use crate::module::Module;
use crate::progress::{Progress, Section};
use sim_base::Fault;
use sim_refusals::numbers::{WASM_COUNT, WASM_CUT, WASM_SECTION};
use std::alloc::Global;
use std::mem::drop;
use wasm_binary::{Reader, close, index, list, list_to, read_name, refused};
use wasm_code::tables;

/// At most so many types, globals and exports.
const ITEMS: u32 = 1024;

/// At most so many segments of each kind.
const SEGMENTS: u32 = 8192;

/// The next section.
pub fn section(alloc: Global, reader: &mut Reader, progress: &Progress) -> Result<Section, Fault>
    ensures { Decodes (section_form progress.now) result reader.old reader.new }
{
    let place = reader.at;
    let byte = reader.byte()?;
    match judge(progress, byte) {
        Ok(id) => section_of(alloc, reader, &progress.module, id),
        Err(number) => Err(refused(number, place)),
    }
}

/// The id of the section, or the rule that the byte breaks.
fn judge(progress: &Progress, byte: u8) -> Result<u8, u8>
    ensures { result ≡ judge_id progress.now byte }
{
    if byte == 0 {
        return Ok(0);
    }
    if byte > 11 || byte <= progress.last {
        return Err(WASM_SECTION);
    }
    if byte == 11 && progress.wants_bodies() {
        return Err(WASM_COUNT);
    }
    Ok(byte)
}

fn section_of(alloc: Global, reader: &mut Reader, known: &Module, id: u8) -> Result<Section, Fault>
    ensures { Decodes (section_of_form known.now id) result reader.old reader.new }
{
    if id == 0 {
        return custom(alloc, reader);
    }
    sized(alloc, reader, known, id)
}

/// A custom section: its name is read and its other bytes are passed over.
fn custom(alloc: Global, reader: &mut Reader) -> Result<Section, Fault>
    ensures { Decodes custom_form result reader.old reader.new }
{
    let size = index(reader)?;
    let mut inner = reader.window(size);
    let _name = read_name(alloc, &mut inner)?;
    let size = size as usize;
    if reader.rest.len() < size {
        let cut = reader.at + reader.rest.len() as u32;
        return Err(refused(WASM_CUT, cut));
    }
    reader.skip(size);
    Ok(Section::Custom)
}

fn sized(alloc: Global, reader: &mut Reader, known: &Module, id: u8) -> Result<Section, Fault>
    ensures { Decodes (sized_form false (content_form known.now id)) result reader.old reader.new }
{
    let size = index(reader)?;
    let mut inner = reader.window(size);
    let section = content(alloc, &mut inner, known, id)?;
    match close(reader, &inner, size, false) {
        Ok(()) => Ok(section),
        Err(fault) => {
            // One call, where a drop at the end of the scope is proved section by section.
            drop(section);
            Err(fault)
        }
    }
}

fn content(alloc: Global, reader: &mut Reader, known: &Module, id: u8) -> Result<Section, Fault>
    ensures { Decodes (content_form known.now id) result reader.old reader.new }
{
    // By match: what is passed to `map` is proved as a function for each section.
    match id {
        1 => match list_to(alloc, reader, ITEMS) {
            Ok(types) => Ok(Section::Types(types)),
            Err(fault) => Err(fault),
        },
        2 => match imports(alloc, reader) {
            Ok(imports) => Ok(Section::Imports(imports)),
            Err(fault) => Err(fault),
        },
        3 => match list_to(alloc, reader, room_for_functions(known)) {
            Ok(functions) => Ok(Section::Functions(functions)),
            Err(fault) => Err(fault),
        },
        4 => match tables(alloc, reader) {
            Ok(tables) => Ok(Section::Tables(tables)),
            Err(fault) => Err(fault),
        },
        5 => match list(alloc, reader) {
            Ok(memories) => Ok(Section::Memories(memories)),
            Err(fault) => Err(fault),
        },
        6 => match list_to(alloc, reader, ITEMS) {
            Ok(globals) => Ok(Section::Globals(globals)),
            Err(fault) => Err(fault),
        },
        7 => match list_to(alloc, reader, ITEMS) {
            Ok(exports) => Ok(Section::Exports(exports)),
            Err(fault) => Err(fault),
        },
        8 => match index(reader) {
            Ok(function) => Ok(Section::Start(function)),
            Err(fault) => Err(fault),
        },
        9 => match list_to(alloc, reader, SEGMENTS) {
            Ok(elements) => Ok(Section::Elements(elements)),
            Err(fault) => Err(fault),
        },
        10 => match bodies(
            alloc,
            reader,
            known.types.as_slice(),
            known.functions.as_slice(),
        ) {
            Ok(bodies) => Ok(Section::Bodies(bodies)),
            Err(fault) => Err(fault),
        },
        _ => match list_to(alloc, reader, SEGMENTS) {
            Ok(segments) => Ok(Section::Segments(segments)),
            Err(fault) => Err(fault),
        },
    }
}

fn room_for_functions(known: &Module) -> u32
    ensures { result ≡ 4096 - imported_of known.now.imports }
{
    (FUNCTIONS as usize).saturating_sub(imported(known.imports.as_slice())) as u32
}
