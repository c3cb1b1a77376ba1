//! 74 ValidForm: the forms of types, imports, tables, memories and the start function.
ghost use Rattle.std.specs.Prelude.{◌≡◌, ◌&&◌, ◌==◌, length, option_and_then, slice_get};
ghost use Rattle.wasm_validate.specs.Rules.{forms as forms_form, fits as fits_form, memory_fits as memory_form_fits, imported_tables, imported_memories, type_of, is_plain_type as plain_form, is_plain_or, desc_fits as desc_form, is_to as is_to_form, start_form};

use crate::rules::{Rule, first_fault, or_then, refused};
use crate::space::Space;
use sim_base::Refusal;
use sim_refusals::numbers::VALID_FORM;
use wasm_code::{FuncType, Limits};
use wasm_decode::{Import, ImportDesc};

/// The greatest number of pages of any memory.
const PAGES: u32 = 65536;

pub fn forms<'s, 'm>(space: &'s Space<'m>) -> Option<Refusal>
    ensures { result ≡ forms_form space.now.module.now }
{
    let imports = ImportForm { space };
    let tables = TableForm { space };
    let memories = MemoryForm { space };
    let known = space.module;
    or_then(
        first_fault(&TypeForm, known.types.as_slice(), VALID_FORM, 1),
        or_then(
            first_fault(&imports, known.imports.as_slice(), VALID_FORM, 2),
            or_then(
                first_fault(&tables, known.tables.as_slice(), VALID_FORM, 4),
                or_then(
                    first_fault(&memories, known.memories.as_slice(), VALID_FORM, 5),
                    start(space),
                ),
            ),
        ),
    )
}

#[derive(Drop)]
struct TypeForm;

impl Rule<FuncType> for TypeForm {
    ghost use Rattle.wasm_validate.specs.Rules.{has_few_results};

    ghost keeps = { λ r. has_few_results };

    fn holds(&self, _i: usize, entry: &FuncType) -> bool {
        entry.results.len() <= 1
    }
}

#[derive(Drop)]
struct ImportForm<'s, 'm> {
    space: &'s Space<'m>,
}

impl<'s, 'm> Rule<Import> for ImportForm<'s, 'm> {
    ghost use Rattle.wasm_validate.specs.Rules.{import_fits};

    ghost keeps = { λ r. import_fits r.space.now.module.now };

    fn holds(&self, i: usize, entry: &Import) -> bool {
        let imports = self.space.module.imports.as_slice();
        let before = if i < imports.len() {
            &imports[..i]
        } else {
            imports
        };
        desc_fits(before, &entry.desc)
    }
}

fn desc_fits(before: &[Import], desc: &ImportDesc) -> bool
    ensures { result ≡ desc_form before.now desc.now }
{
    match desc {
        ImportDesc::Function(_) => true,
        ImportDesc::Table(limits) => fits(limits) && has_no_table(before),
        ImportDesc::Memory(limits) => memory_fits(limits) && has_no_memory(before),
        ImportDesc::Global(_) => true,
    }
}

fn fits(limits: &Limits) -> bool
    ensures { result ≡ fits_form limits.now }
{
    match limits.greatest {
        Some(greatest) => limits.least <= greatest,
        None => true,
    }
}

fn memory_fits(limits: &Limits) -> bool
    ensures { result ≡ memory_form_fits limits.now }
{
    fits(limits) && limits.least <= PAGES && is_to(limits.greatest, PAGES)
}

fn is_to(greatest: Option<u32>, most: u32) -> bool
    ensures { result ≡ is_to_form greatest most }
{
    match greatest {
        Some(greatest) => greatest <= most,
        None => true,
    }
}

fn has_no_table(imports: &[Import]) -> bool
    ensures { result ≡ (length (imported_tables imports.now) == 0) }
{
    for import in imports {
        if let ImportDesc::Table(_) = import.desc {
            return false;
        }
    }
    true
}

fn has_no_memory(imports: &[Import]) -> bool
    ensures { result ≡ (length (imported_memories imports.now) == 0) }
{
    for import in imports {
        if let ImportDesc::Memory(_) = import.desc {
            return false;
        }
    }
    true
}

#[derive(Drop)]
struct TableForm<'s, 'm> {
    space: &'s Space<'m>,
}

impl<'s, 'm> Rule<Limits> for TableForm<'s, 'm> {
    ghost use Rattle.wasm_validate.specs.Rules.{table_fits};

    ghost keeps = { λ r. table_fits r.space.now.module.now };

    fn holds(&self, i: usize, entry: &Limits) -> bool {
        fits(entry) && i == 0 && has_no_table(self.space.module.imports.as_slice())
    }
}

#[derive(Drop)]
struct MemoryForm<'s, 'm> {
    space: &'s Space<'m>,
}

impl<'s, 'm> Rule<Limits> for MemoryForm<'s, 'm> {
    ghost use Rattle.wasm_validate.specs.Rules.{memory_form};

    ghost keeps = { λ r. memory_form r.space.now.module.now };

    fn holds(&self, i: usize, entry: &Limits) -> bool {
        memory_fits(entry) && i == 0 && has_no_memory(self.space.module.imports.as_slice())
    }
}

fn start(space: &Space) -> Option<Refusal>
    ensures { result ≡ start_form space.now.module.now }
{
    match space.module.start {
        Some(f) => {
            if is_plain_function(space, f, true) {
                None
            } else {
                Some(refused(VALID_FORM, 8, 0))
            }
        }
        None => None,
    }
}

/// Whether a function has no operands and no results; `absent` where there is no such function.
pub fn is_plain_function(space: &Space, f: u32, absent: bool) -> bool
    ensures { result ≡ is_plain_or absent (type_of space.now.module.now f) }
{
    match space.functions.get(f as usize) {
        Some(t) => match space.module.types.get(*t as usize) {
            Some(kind) => is_plain_type(kind),
            None => absent,
        },
        None => absent,
    }
}

fn is_plain_type(kind: &FuncType) -> bool
    ensures { result ≡ plain_form kind.now }
{
    kind.params.len() == 0 && kind.results.len() == 0
}
