//! A module and its items ("Modules" of the core specification).
use sim_base::{List, Text};
use wasm_code::{Expr, FuncType, GlobalType, Limits, ValType};

/// What an import or an export is.
#[derive(Clone, Copy)]
pub enum Extern {
    Function,
    Table,
    Memory,
    Global,
}

/// What is imported: a function of the type with that number, or the type of the rest.
#[derive(Clone, Copy)]
pub enum ImportDesc {
    Function(u32),
    Table(Limits),
    Memory(Limits),
    Global(GlobalType),
}

#[derive(Drop)]
pub struct Import {
    pub module: Text,
    pub name: Text,
    pub desc: ImportDesc,
}

#[derive(Drop)]
pub struct GlobalDef {
    pub kind: GlobalType,
    pub init: Expr,
}

#[derive(Drop)]
pub struct Export {
    pub name: Text,
    pub kind: Extern,
    pub index: u32,
}

/// Function indexes that are put into the table from the offset on.
#[derive(Drop)]
pub struct ElementSegment {
    pub offset: Expr,
    pub functions: List<u32>,
}

/// So many locals of one type.
#[derive(Clone, Copy)]
pub struct LocalRun {
    pub count: u32,
    pub value: ValType,
}

#[derive(Drop)]
pub struct Body {
    pub locals: List<LocalRun>,
    pub code: Expr,
}

/// Bytes that are put into the memory from the offset on.
#[derive(Drop)]
pub struct DataSegment {
    pub offset: Expr,
    pub bytes: List<u8>,
}

/// The sections of a module, each as the list of its items; one that is absent is empty.
#[derive(Drop)]
pub struct Module {
    pub types: List<FuncType>,
    pub imports: List<Import>,
    /// The type of each function, by its number.
    pub functions: List<u32>,
    pub tables: List<Limits>,
    pub memories: List<Limits>,
    pub globals: List<GlobalDef>,
    pub exports: List<Export>,
    pub start: Option<u32>,
    pub elements: List<ElementSegment>,
    pub bodies: List<Body>,
    pub segments: List<DataSegment>,
}
