//! 70 ValidIndex outside bodies: the indexes of imports, functions, globals, exports, the start function and segments.
ghost use Rattle.std.specs.Prelude.{◌≡◌, ◌+◌, ◌<◌, ◌≤◌, ◌^◌, [], ◌∷◌};
ghost use Rattle.wasm_typing.specs.Typing.{labels_behind};
ghost use Rattle.wasm_validate.specs.Rules.{indexes as indexes_form, initial as initial_form, all_exist as all_form, desc_exists as desc_form, extern_exists as extern_form, start_exists as start_form};
ghost use Rattle.wasm_typing.specs.Contexts.{context_of};

use crate::rules::{Rule, first_fault, or_then, refused};
use crate::space::Space;
use sim_base::Refusal;
use sim_refusals::numbers::VALID_INDEX;
use wasm_code::Instr;
use wasm_decode::{DataSegment, ElementSegment, Export, Extern, GlobalDef, Import, ImportDesc};
use wasm_typing::{BodyContext, are_below, exists};

pub fn indexes<'s, 'm>(space: &'s Space<'m>) -> Option<Refusal>
    ensures { result ≡ indexes_form space.now.module.now }
{
    let rule = Exists { space };
    let known = space.module;
    or_then(
        first_fault::<Import, Exists>(&rule, known.imports.as_slice(), VALID_INDEX, 2),
        or_then(
            first_fault::<u32, Exists>(&rule, known.functions.as_slice(), VALID_INDEX, 3),
            or_then(
                first_fault::<GlobalDef, Exists>(&rule, known.globals.as_slice(), VALID_INDEX, 6),
                or_then(
                    first_fault::<Export, Exists>(&rule, known.exports.as_slice(), VALID_INDEX, 7),
                    or_then(
                        start(space),
                        or_then(
                            first_fault::<ElementSegment, Exists>(
                                &rule,
                                known.elements.as_slice(),
                                VALID_INDEX,
                                9,
                            ),
                            first_fault::<DataSegment, Exists>(
                                &rule,
                                known.segments.as_slice(),
                                VALID_INDEX,
                                11,
                            ),
                        ),
                    ),
                ),
            ),
        ),
    )
}

/// The indexes in an entry exist.
#[derive(Drop)]
struct Exists<'s, 'm> {
    space: &'s Space<'m>,
}

impl<'s, 'm> Rule<Import> for Exists<'s, 'm> {
    ghost use Rattle.wasm_validate.specs.Rules.{import_exists};

    ghost keeps = { λ r. import_exists r.space.now.module.now };

    fn holds(&self, _i: usize, entry: &Import) -> bool {
        desc_exists(self.space, &entry.desc)
    }
}

fn desc_exists(space: &Space, desc: &ImportDesc) -> bool
    ensures { result ≡ desc_form space.now.module.now desc.now }
{
    match desc {
        ImportDesc::Function(t) => (*t as usize) < space.module.types.len(),
        ImportDesc::Table(_) => true,
        ImportDesc::Memory(_) => true,
        ImportDesc::Global(_) => true,
    }
}

/// The type of a function.
impl<'s, 'm> Rule<u32> for Exists<'s, 'm> {
    ghost use Rattle.wasm_validate.specs.Rules.{type_exists};

    ghost keeps = { λ r. type_exists r.space.now.module.now };

    fn holds(&self, _i: usize, entry: &u32) -> bool {
        (*entry as usize) < self.space.module.types.len()
    }
}

impl<'s, 'm> Rule<GlobalDef> for Exists<'s, 'm> {
    ghost use Rattle.wasm_validate.specs.Rules.{global_exists};

    ghost keeps = { λ r. global_exists r.space.now.module.now };

    fn holds(&self, _i: usize, entry: &GlobalDef) -> bool {
        all_exist(self.space, entry.init.as_slice())
    }
}

impl<'s, 'm> Rule<Export> for Exists<'s, 'm> {
    ghost use Rattle.wasm_validate.specs.Rules.{export_exists};

    ghost keeps = { λ r. export_exists r.space.now.module.now };

    fn holds(&self, _i: usize, entry: &Export) -> bool {
        extern_exists(self.space, entry.kind, entry.index)
    }
}

fn extern_exists(space: &Space, kind: Extern, index: u32) -> bool
    ensures { result ≡ extern_form space.now.module.now kind index }
{
    let index = index as usize;
    match kind {
        Extern::Function => index < space.functions.len(),
        Extern::Table => index < space.tables.len(),
        Extern::Memory => index < space.memories.len(),
        Extern::Global => index < space.globals.len(),
    }
}

impl<'s, 'm> Rule<ElementSegment> for Exists<'s, 'm> {
    ghost use Rattle.wasm_validate.specs.Rules.{element_exists};

    ghost keeps = { λ r. element_exists r.space.now.module.now };

    fn holds(&self, _i: usize, entry: &ElementSegment) -> bool {
        self.space.tables.len() > 0
            && all_exist(self.space, entry.offset.as_slice())
            && are_below(entry.functions.as_slice(), self.space.functions.len())
    }
}

impl<'s, 'm> Rule<DataSegment> for Exists<'s, 'm> {
    ghost use Rattle.wasm_validate.specs.Rules.{segment_exists};

    ghost keeps = { λ r. segment_exists r.space.now.module.now };

    fn holds(&self, _i: usize, entry: &DataSegment) -> bool {
        self.space.memories.len() > 0 && all_exist(self.space, entry.offset.as_slice())
    }
}

fn start(space: &Space) -> Option<Refusal>
    ensures { result ≡ start_form space.now.module.now }
{
    match space.module.start {
        Some(f) => {
            if (f as usize) < space.functions.len() {
                None
            } else {
                Some(refused(VALID_INDEX, 8, 0))
            }
        }
        None => None,
    }
}

/// What an initial expression may name.
fn initial<'a>(space: &'a Space) -> BodyContext<'a>
    ensures { context_of result ≡ initial_form space.now.module.now }
{
    BodyContext {
        types: space.module.types.as_slice(),
        functions: &space.functions,
        tables: space.tables.len(),
        memories: space.memories.len(),
        globals: &space.globals,
        locals: &[],
        returns: None,
    }
}

/// Whether the indexes and labels of an initial expression exist. It is no label of its own.
fn all_exist(space: &Space, code: &[Instr]) -> bool
    ensures { result ≡ all_form space.now.module.now code.now 0 }
{
    let context = initial(space);
    let mut labels = 0;
    for instr in code {
        if !exists(&context, labels, instr) {
            return false;
        }
        labels = labels_after(instr, labels);
    }
    true
}

fn labels_after(instr: &Instr, labels: usize) -> usize
    requires small { labels < 2 ^ 63 }
    ensures is { result ≡ labels_behind (instr.now ∷ []) labels }
    ensures within { result ≤ labels + 1 }
{
    match instr {
        Instr::Block(_) | Instr::Loop(_) | Instr::If(_) => labels + 1,
        Instr::End => labels.saturating_sub(1),
        _ => labels,
    }
}
