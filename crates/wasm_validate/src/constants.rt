//! 72 ValidConst, 73 ValidExport, 78 ValidSegment, and 79 ValidLimit outside bodies.
ghost use Rattle.std.specs.Prelude.{◌≡◌, ◌+◌, ◌<◌, ◌^◌, nat_le};
ghost use Rattle.std.specs.Str.{bytes_eq};
ghost use Rattle.wasm_validate.specs.Rules.{constants as constants_form, names as names_form, insides as insides_form, sizes as sizes_form, is_constant as constant_form, offset_of as offset_form, least_of as least_form, desc_small as desc_form, all_differ, is_end as end_form, is_constant_of as of_form};

use crate::rules::{Rule, first_fault, or_then};
use crate::space::Space;
use sim_base::{Refusal, Text};
use sim_refusals::numbers::{VALID_CONST, VALID_EXPORT, VALID_LIMIT, VALID_SEGMENT};
use wasm_code::{FloatInstr, Instr, Limits, ValType};
use wasm_decode::{DataSegment, ElementSegment, Export, GlobalDef, Import, ImportDesc};

/// The greatest number of pages that a memory may begin with, and of entries that a table may.
const PAGES: u32 = 64;

const ENTRIES: u32 = 8192;

/// The bytes of a page.
const PAGE: u64 = 65536;

pub fn constants(space: &Space) -> Option<Refusal>
    ensures { result ≡ constants_form space.now.module.now }
{
    let known = space.module;
    or_then(
        first_fault::<GlobalDef, Constant>(&Constant, known.globals.as_slice(), VALID_CONST, 6),
        or_then(
            first_fault::<ElementSegment, Constant>(
                &Constant,
                known.elements.as_slice(),
                VALID_CONST,
                9,
            ),
            first_fault::<DataSegment, Constant>(
                &Constant,
                known.segments.as_slice(),
                VALID_CONST,
                11,
            ),
        ),
    )
}

/// An initial expression is one constant of its type.
#[derive(Drop)]
struct Constant;

impl Rule<GlobalDef> for Constant {
    ghost use Rattle.wasm_validate.specs.Rules.{global_constant};

    ghost keeps = { λ r. global_constant };

    fn holds(&self, _i: usize, entry: &GlobalDef) -> bool {
        is_constant(entry.kind.value, entry.init.as_slice())
    }
}

impl Rule<ElementSegment> for Constant {
    ghost use Rattle.wasm_validate.specs.Rules.{element_constant};

    ghost keeps = { λ r. element_constant };

    fn holds(&self, _i: usize, entry: &ElementSegment) -> bool {
        is_constant(ValType::I32, entry.offset.as_slice())
    }
}

impl Rule<DataSegment> for Constant {
    ghost use Rattle.wasm_validate.specs.Rules.{segment_constant};

    ghost keeps = { λ r. segment_constant };

    fn holds(&self, _i: usize, entry: &DataSegment) -> bool {
        is_constant(ValType::I32, entry.offset.as_slice())
    }
}

fn is_constant(wanted: ValType, code: &[Instr]) -> bool
    ensures { result ≡ constant_form wanted code.now }
{
    if code.len() != 2 {
        return false;
    }
    is_constant_of(wanted, &code[0]) && is_end(&code[1])
}

fn is_constant_of(wanted: ValType, instr: &Instr) -> bool
    ensures { result ≡ of_form wanted instr.now }
{
    match wanted {
        ValType::I32 => matches!(instr, Instr::I32Const(_)),
        ValType::I64 => matches!(instr, Instr::I64Const(_)),
        ValType::F32 => matches!(instr, Instr::Float(FloatInstr::F32Const(_))),
        ValType::F64 => matches!(instr, Instr::Float(FloatInstr::F64Const(_))),
    }
}

fn is_end(instr: &Instr) -> bool
    ensures { result ≡ end_form instr.now }
{
    matches!(instr, Instr::End)
}

pub fn names<'s, 'm>(space: &'s Space<'m>) -> Option<Refusal>
    ensures { result ≡ names_form space.now.module.now }
{
    let rule = NewName { space };
    first_fault::<Export, NewName>(&rule, space.module.exports.as_slice(), VALID_EXPORT, 7)
}

/// No earlier export has the name.
#[derive(Drop)]
struct NewName<'s, 'm> {
    space: &'s Space<'m>,
}

impl<'s, 'm> Rule<Export> for NewName<'s, 'm> {
    ghost use Rattle.wasm_validate.specs.Rules.{export_is_new};

    ghost keeps = { λ r. export_is_new r.space.now.module.now };

    fn holds(&self, i: usize, entry: &Export) -> bool {
        let exports = self.space.module.exports.as_slice();
        let before = if i < exports.len() {
            &exports[..i]
        } else {
            exports
        };
        differ(before, &entry.name)
    }
}

fn differ(exports: &[Export], name: &Text) -> bool
    ensures { result ≡ all_differ exports.now name.now }
{
    for export in exports {
        if is_same_name(&export.name, name) {
            return false;
        }
    }
    true
}

fn is_same_name(a: &Text, b: &Text) -> bool
    ensures { result ≡ bytes_eq a.now b.now }
{
    a.as_str().as_bytes() == b.as_str().as_bytes()
}

pub fn insides<'s, 'm>(space: &'s Space<'m>) -> Option<Refusal>
    ensures { result ≡ insides_form space.now.module.now }
{
    let rule = Inside { space };
    or_then(
        first_fault::<ElementSegment, Inside>(
            &rule,
            space.module.elements.as_slice(),
            VALID_SEGMENT,
            9,
        ),
        first_fault::<DataSegment, Inside>(
            &rule,
            space.module.segments.as_slice(),
            VALID_SEGMENT,
            11,
        ),
    )
}

/// A segment ends within the least size of its table or memory.
#[derive(Drop)]
struct Inside<'s, 'm> {
    space: &'s Space<'m>,
}

impl<'s, 'm> Rule<ElementSegment> for Inside<'s, 'm> {
    ghost use Rattle.wasm_validate.specs.Rules.{element_inside};

    ghost keeps = { λ r. element_inside r.space.now.module.now };

    fn holds(&self, _i: usize, entry: &ElementSegment) -> bool {
        ends_by(
            offset(entry.offset.as_slice()),
            entry.functions.len(),
            u64::from(least(&self.space.tables)),
        )
    }
}

impl<'s, 'm> Rule<DataSegment> for Inside<'s, 'm> {
    ghost use Rattle.wasm_validate.specs.Rules.{segment_inside};

    ghost keeps = { λ r. segment_inside r.space.now.module.now };

    fn holds(&self, _i: usize, entry: &DataSegment) -> bool {
        ends_by(
            offset(entry.offset.as_slice()),
            entry.bytes.len(),
            PAGE * u64::from(least(&self.space.memories)),
        )
    }
}

/// Whether so many items from a place on end by that size.
fn ends_by(from: u32, count: usize, size: u64) -> bool
    requires { size < 2 ^ 63 }
    ensures { result ≡ nat_le (from + count) size }
{
    count as u64 <= size && u64::from(from) + count as u64 <= size
}

fn offset(code: &[Instr]) -> u32
    ensures { result ≡ offset_form code.now }
{
    match code {
        [Instr::I32Const(n), ..] => *n,
        _ => 0,
    }
}

fn least(limits: &[Limits]) -> u32
    ensures { result ≡ least_form limits.now }
{
    match limits {
        [first, ..] => first.least,
        [] => 0,
    }
}

pub fn sizes(space: &Space) -> Option<Refusal>
    ensures { result ≡ sizes_form space.now.module.now }
{
    let known = space.module;
    or_then(
        first_fault::<Import, SmallImport>(&SmallImport, known.imports.as_slice(), VALID_LIMIT, 2),
        or_then(
            first_fault::<Limits, SmallTable>(&SmallTable, known.tables.as_slice(), VALID_LIMIT, 4),
            first_fault::<Limits, SmallMemory>(
                &SmallMemory,
                known.memories.as_slice(),
                VALID_LIMIT,
                5,
            ),
        ),
    )
}

#[derive(Drop)]
struct SmallImport;

impl Rule<Import> for SmallImport {
    ghost use Rattle.wasm_validate.specs.Rules.{import_small};

    ghost keeps = { λ r. import_small };

    fn holds(&self, _i: usize, entry: &Import) -> bool {
        is_small(&entry.desc)
    }
}

fn is_small(desc: &ImportDesc) -> bool
    ensures { result ≡ desc_form desc.now }
{
    match desc {
        ImportDesc::Table(limits) => limits.least <= ENTRIES,
        ImportDesc::Memory(limits) => limits.least <= PAGES,
        ImportDesc::Function(_) => true,
        ImportDesc::Global(_) => true,
    }
}

#[derive(Drop)]
struct SmallTable;

impl Rule<Limits> for SmallTable {
    ghost use Rattle.wasm_validate.specs.Rules.{table_small};

    ghost keeps = { λ r. table_small };

    fn holds(&self, _i: usize, entry: &Limits) -> bool {
        entry.least <= ENTRIES
    }
}

#[derive(Drop)]
struct SmallMemory;

impl Rule<Limits> for SmallMemory {
    ghost use Rattle.wasm_validate.specs.Rules.{memory_small};

    ghost keeps = { λ r. memory_small };

    fn holds(&self, _i: usize, entry: &Limits) -> bool {
        entry.least <= PAGES
    }
}
