//! The module of a chip.
ghost use Rattle.std.specs.Prelude.{◌≡◌, ◌≤◌, ℕ, List, Ok, IfOk, length};
ghost use Rattle.wasm_validate.specs.Validity.{IsValid};
ghost use Rattle.chip_abi.specs.Imports.{imports_of};
ghost use Rattle.chip_module.specs.Binary.{IsReading, IsTextOf};

use chip_abi::{ImportMap, check_imports};
use sim_base::{Fault, OutOfMemory};
use std::alloc::Global;
use std::marker::Model;
use wasm_decode::{Module, decode};
use wasm_validate::{Valid, validate};

/// A module that was accepted. Its copies share it.
#[derive(Drop)]
pub struct ChipModule {
    valid: Valid,
    map: ImportMap,
}

impl Model for ChipModule {
    ghost use Rattle.std.specs.Prelude.{◌≡◌, Ok};
    ghost use Rattle.chip_abi.specs.Imports.{imports_of};
    ghost use Rattle.chip_module.specs.Binary.{Binary};

    ghost Value = { Binary };

    ghost view = { λ m. record { wasm = m.valid.wasm; init = m.valid.init; table = m.map } };

    ghost invariant = { λ m. imports_of m.valid.wasm ≡ Ok m.map };
}

/// A valid module, by its imports.
fn with_imports(alloc: Global, valid: Valid) -> Result<ChipModule, Fault>
    requires { IsValid valid.wasm valid.init }
    ensures { (bytes : List ℕ) → IsTextOf bytes valid.wasm → IsReading bytes result }
{
    match check_imports(alloc, &valid) {
        Ok(map) => Ok(ChipModule { valid, map }),
        Err(fault) => Err(fault),
    }
}

/// A decoded module, by the rules that it keeps.
fn validated(alloc: Global, wasm: Module) -> Result<ChipModule, Fault>
    ensures { (bytes : List ℕ) → IsTextOf bytes wasm → IsReading bytes result }
{
    match validate(alloc, wasm) {
        Ok(valid) => with_imports(alloc, valid),
        Err(fault) => Err(fault),
    }
}

impl ChipModule {
    /// The module that the bytes stand for. Refuses with 60 WasmMagic to 74 ValidForm and 77 ChipInit to 79 ValidLimit by the
    /// rules of its form and of its validity, and then with 75 ImportUnknown or 76 ImportType at the Import that fails first.
    pub fn read(alloc: Global, bytes: Vec<u8>) -> Result<ChipModule, Fault>
        requires { length bytes.items ≤ 1048576 }
        ensures { IsReading bytes.items result }
    {
        match decode(alloc, &bytes) {
            Ok(wasm) => validated(alloc, wasm),
            Err(fault) => Err(fault),
        }
    }

    /// The same module, shared; what it imports is copied.
    pub fn copy(&self, alloc: Global) -> Result<ChipModule, OutOfMemory>
        ensures { IfOk result (λ copy. copy ≡ self.now) }
    {
        let valid = self.valid.share()?;
        let map = self.map.copy(alloc)?;
        Ok(ChipModule { valid, map })
    }

    /// The valid module, and the names of its imported functions.
    pub fn into_parts(self) -> (Valid, ImportMap)
        ensures wasm { result.0.wasm ≡ self.wasm }
        ensures init { result.0.init ≡ self.init }
        ensures table { result.1 ≡ self.table }
        ensures imports { imports_of result.0.wasm ≡ Ok result.1 }
    {
        (self.valid, self.map)
    }
}
