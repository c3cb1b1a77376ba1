//! What stands between two sections.
ghost use Rattle.std.specs.Prelude.{◌≡◌};
ghost use Rattle.wasm_decode.specs.ModuleText.{nothing};
ghost use Rattle.wasm_decode.specs.SectionText.{wants_bodies as wants, with_section};

use crate::module::{Body, DataSegment, ElementSegment, Export, GlobalDef, Import, Module};
use sim_base::List;
use std::alloc::Global;
use wasm_code::{FuncType, Limits};

/// The content of a section.
#[derive(Drop)]
pub enum Section {
    Custom,
    Types(List<FuncType>),
    Imports(List<Import>),
    Functions(List<u32>),
    Tables(List<Limits>),
    Memories(List<Limits>),
    Globals(List<GlobalDef>),
    Exports(List<Export>),
    Start(u32),
    Elements(List<ElementSegment>),
    Bodies(List<Body>),
    Segments(List<DataSegment>),
}

/// The id of the last section that is no custom section, and the module so far.
#[derive(Drop)]
pub struct Progress {
    pub last: u8,
    pub module: Module,
}

impl Progress {
    pub fn new(alloc: Global) -> Progress
        ensures { result ≡ nothing }
    {
        Progress {
            last: 0,
            module: Module {
                types: List::new(alloc),
                imports: List::new(alloc),
                functions: List::new(alloc),
                tables: List::new(alloc),
                memories: List::new(alloc),
                globals: List::new(alloc),
                exports: List::new(alloc),
                start: None,
                elements: List::new(alloc),
                bodies: List::new(alloc),
                segments: List::new(alloc),
            },
        }
    }

    /// Whether functions are there and their bodies are not.
    pub fn wants_bodies(&self) -> bool
        ensures { result ≡ wants self.now }
    {
        if self.module.functions.len() == 0 {
            return false;
        }
        self.last < 10
    }

    /// Puts a section into its place.
    pub fn put(&mut self, section: Section)
        ensures { self.new ≡ with_section self.old section }
    {
        match section {
            Section::Custom => {}
            Section::Types(types) => {
                self.last = 1;
                self.module.types = types;
            }
            Section::Imports(imports) => {
                self.last = 2;
                self.module.imports = imports;
            }
            Section::Functions(functions) => {
                self.last = 3;
                self.module.functions = functions;
            }
            Section::Tables(tables) => {
                self.last = 4;
                self.module.tables = tables;
            }
            Section::Memories(memories) => {
                self.last = 5;
                self.module.memories = memories;
            }
            Section::Globals(globals) => {
                self.last = 6;
                self.module.globals = globals;
            }
            Section::Exports(exports) => {
                self.last = 7;
                self.module.exports = exports;
            }
            Section::Start(function) => {
                self.last = 8;
                self.module.start = Some(function);
            }
            Section::Elements(elements) => {
                self.last = 9;
                self.module.elements = elements;
            }
            Section::Bodies(bodies) => {
                self.last = 10;
                self.module.bodies = bodies;
            }
            Section::Segments(segments) => {
                self.last = 11;
                self.module.segments = segments;
            }
        }
    }
}
