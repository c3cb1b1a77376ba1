//! Valid modules.
ghost use Rattle.std.specs.Prelude.{◌≡◌, IfOk};
ghost use Rattle.wasm_validate.specs.Validity.{IsValid, import_texts};

use crate::import_text::ImportText;
use sim_base::{List, OutOfMemory};
use std::alloc::Global;
use std::marker::Model;
use std::rc::Rc;
use wasm_decode::Module;

/// A module, its imports by their names, and the number of the function that sets the chip up.
#[derive(Drop)]
struct Known {
    module: Module,
    imports: List<ImportText>,
    chip_init: u32,
}

/// A module that keeps all rules. Several values may share one module.
#[derive(Drop)]
pub struct Valid {
    known: Rc<Known, Global>,
}

impl Model for Valid {
    ghost use Rattle.std.specs.Prelude.{◌≡◌};
    ghost use Rattle.wasm_validate.specs.Validity.{Chip, IsValid, import_texts};

    ghost Value = { Chip };

    ghost view = { λ v. record { wasm = v.known.value.module; init = v.known.value.chip_init } };

    ghost invariant = { λ v. (v.known.value.imports ≡ import_texts v.known.value.module.imports)
        × IsValid v.known.value.module v.known.value.chip_init };
}

impl Valid {
    pub(crate) fn new(
        alloc: Global,
        wasm: Module,
        imports: List<ImportText>,
        chip_init: u32,
    ) -> Result<Valid, OutOfMemory>
        requires texts { imports ≡ import_texts wasm.imports }
        requires valid { IsValid wasm chip_init }
        ensures { IfOk result (λ v. v ≡ record { wasm = wasm; init = chip_init }) }
    {
        let known = Known {
            module: wasm,
            imports,
            chip_init,
        };
        match Rc::new(alloc, known) {
            Ok(known) => Ok(Valid { known }),
            Err(_) => Err(OutOfMemory),
        }
    }

    /// The same module, shared.
    pub fn share(&self) -> Result<Valid, OutOfMemory>
        ensures { IfOk result (λ v. v ≡ self.now) }
    {
        let known = self.known.clone()?;
        Ok(Valid { known })
    }

    pub fn module(&self) -> &Module
        ensures module { result.now ≡ self.now.wasm }
        ensures valid { IsValid self.now.wasm self.now.init }
    {
        &self.known.module
    }

    /// The imports in order.
    pub fn imports(&self) -> &List<ImportText>
        ensures { result.now ≡ import_texts self.now.wasm.imports }
    {
        &self.known.imports
    }

    /// The number of the function that sets the chip up.
    pub fn chip_init(&self) -> u32
        ensures { result ≡ self.now.init }
    {
        self.known.chip_init
    }

    /// The number of the start function; none where the module has none.
    pub fn start(&self) -> Option<u32>
        ensures { result ≡ self.now.wasm.start }
    {
        self.known.module.start
    }
}
