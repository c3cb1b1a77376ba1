//! The imports of a chip's module.
ghost use Rattle.std.specs.Prelude.{◌≡◌, ◌<◌, ◌+◌, length, Some, slice_get, IfOk};
ghost use Rattle.sim_base.specs.Reads.{Reads};
ghost use Rattle.sim_refusals.specs.Refusals.{ImportType, ImportUnknown};
ghost use Rattle.wasm_semantics.specs.Eval.{same_types, same_signature};
ghost use Rattle.wasm_validate.specs.Rules.{capped};
ghost use Rattle.chip_abi.specs.HostNames.{type_of_name};
ghost use Rattle.chip_abi.specs.Imports.{typed, found, read_imports, imports_of};

use crate::host_name::{HostName, named, params_of, results_of};
use sim_base::{Fault, List, OutOfMemory, Place, Refusal};
use sim_refusals::numbers::{IMPORT_TYPE, IMPORT_UNKNOWN};
use std::alloc::Global;
use std::marker::Model;
use wasm_code::{FuncType, ValType};
use wasm_validate::{ImportKind, ImportText, Valid};

/// The name of each function that a module imports, in order.
#[derive(Drop)]
pub struct ImportMap {
    names: List<HostName>,
}

impl Model for ImportMap {
    ghost use Rattle.std.specs.Prelude.{List};
    ghost use Rattle.chip_abi.specs.declared.host_name.HostName.{HostName};

    ghost Value = { List HostName };

    ghost view = { λ m. m.names };
}

impl ImportMap {
    /// The name of an imported function, counted from 0.
    pub fn name(&self, import: u32) -> HostName
        requires { import < length self.now }
        ensures { slice_get self.now import ≡ Some result }
    {
        self.names.as_slice()[import as usize]
    }

    /// The same names once more.
    pub fn copy(&self, alloc: Global) -> Result<ImportMap, OutOfMemory>
        ensures { IfOk result (λ copy. copy ≡ self.now) }
    {
        let names = self.names.as_slice().to_vec(alloc)?;
        Ok(ImportMap {
            names: List::from_vec(names),
        })
    }
}

fn same_types(found: &[ValType], wanted: &[ValType]) -> bool
    ensures { result ≡ same_types found.now wanted.now }
{
    match (found, wanted) {
        ([], []) => true,
        ([ValType::I32, found @ ..], [ValType::I32, wanted @ ..]) => same_types(found, wanted),
        ([ValType::I64, found @ ..], [ValType::I64, wanted @ ..]) => same_types(found, wanted),
        ([ValType::F32, found @ ..], [ValType::F32, wanted @ ..]) => same_types(found, wanted),
        ([ValType::F64, found @ ..], [ValType::F64, wanted @ ..]) => same_types(found, wanted),
        _ => false,
    }
}

fn has_type(kind: &FuncType, name: HostName) -> bool
    ensures { result ≡ same_signature kind.now (type_of_name name) }
{
    same_types(kind.params.as_slice(), params_of(name))
        && same_types(kind.results.as_slice(), results_of(name))
}

/// A known function by its type, or why it is refused.
fn typed(types: &[FuncType], number: u32, name: HostName) -> Result<Option<HostName>, u8>
    ensures { result ≡ typed (slice_get types.now number) name }
{
    match types.get(number as usize) {
        Some(kind) if has_type(kind, name) => Ok(Some(name)),
        _ => Err(IMPORT_TYPE),
    }
}

/// What an import is: a function, the memory, or refused with this number.
fn found(types: &[FuncType], import: &ImportText) -> Result<Option<HostName>, u8>
    ensures { result ≡ found types.now import.now }
{
    let module = import.module.as_str();
    let name = import.name.as_str();
    match import.kind {
        ImportKind::Function(number) => match named(module, name) {
            Some(name) => typed(types, number, name),
            None => Err(IMPORT_UNKNOWN),
        },
        ImportKind::Memory => {
            if module == "env" && name == "memory" {
                Ok(None)
            } else {
                Err(IMPORT_UNKNOWN)
            }
        }
        ImportKind::Table | ImportKind::Global => Err(IMPORT_UNKNOWN),
    }
}

/// A place as a refusal tells it.
fn told(i: usize) -> u32
    ensures { result ≡ capped i }
{
    i.min(0xFFFF_FFFF) as u32
}

fn read_imports(
    alloc: Global,
    types: &[FuncType],
    imports: &[ImportText],
) -> Result<List<HostName>, Fault>
    ensures { Reads (λ names. names) result (read_imports types.now 1 imports.now) }
{
    let mut names = List::new(alloc);
    for i in 0..imports.len() {
        match found(types, &imports[i]) {
            Ok(Some(name)) => names.push(name)?,
            Ok(None) => {}
            Err(number) => {
                let place = Place::Import(told(i + 1));
                return Err(Fault::Refused(Refusal { number, place }));
            }
        }
    }
    Ok(names)
}

/// The names of a module's imported functions. Refuses with 75 ImportUnknown or 76 ImportType at the Import that fails
/// first, counted from 1: the memory is `memory` of `env`, and a function is one of its module's with its type.
pub fn check_imports(alloc: Global, valid: &Valid) -> Result<ImportMap, Fault>
    ensures { Reads (λ map. map) result (imports_of valid.now.wasm) }
{
    match read_imports(
        alloc,
        valid.module().types.as_slice(),
        valid.imports().as_slice(),
    ) {
        Ok(names) => Ok(ImportMap { names }),
        Err(fault) => Err(fault),
    }
}
