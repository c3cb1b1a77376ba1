//! The function that sets a chip up.
ghost use Rattle.std.specs.Prelude.{◌≡◌};
ghost use Rattle.wasm_validate.specs.Rules.{chip_init as init_form, find_init, is_chip_init as is_form, is_function as function_form};

use crate::forms::is_plain_function;
use crate::space::Space;
use wasm_decode::{Export, Extern};

/// The number of the exported function `chipInit` without operands and results.
pub fn chip_init(space: &Space) -> Option<u32>
    ensures { result ≡ init_form space.now.module.now }
{
    find(space, space.module.exports.as_slice())
}

fn find(space: &Space, exports: &[Export]) -> Option<u32>
    ensures { result ≡ find_init space.now.module.now exports.now }
{
    for export in exports {
        if is_chip_init(space, export) {
            return Some(export.index);
        }
    }
    None
}

fn is_chip_init(space: &Space, export: &Export) -> bool
    ensures { result ≡ is_form space.now.module.now export.now }
{
    export.name.as_str() == "chipInit"
        && is_function(export.kind)
        && is_plain_function(space, export.index, false)
}

fn is_function(kind: Extern) -> bool
    ensures { result ≡ function_form kind }
{
    matches!(kind, Extern::Function)
}
