//! The validator.
ghost use Rattle.std.specs.Prelude.{◌≡◌, IfOk, MatchResult};
ghost use Rattle.wasm_validate.specs.Answers.{IsValidated};
ghost use Rattle.wasm_validate.specs.Rules.{outside as outside_form};
ghost use Rattle.wasm_validate.specs.Validity.{IsValid, IsRefused, import_texts};

use crate::bodies::body_fault;
use crate::collecting::spaces;
use crate::constants::{constants, insides, names, sizes};
use crate::forms::forms;
use crate::import_text::{ImportText, texts};
use crate::indexes::indexes;
use crate::init::chip_init;
use crate::rules::or_then;
use crate::space::Space;
use crate::valid::Valid;
use sim_base::{Fault, List, Place, Refusal};
use sim_refusals::numbers::CHIP_INIT;
use std::alloc::Global;
use std::mem::drop;
use wasm_decode::Module;

/// A module that keeps all rules as valid; the first rule that it breaks otherwise.
pub fn validate(alloc: Global, module: Module) -> Result<Valid, Fault>
    ensures { IsValidated «module» result }
{
    match known(alloc, &module) {
        Ok((imports, chip_init)) => Ok(Valid::new(alloc, module, imports, chip_init)?),
        Err(fault) => {
            // One call, where a drop at the end of the scope is proved list by list.
            drop(module);
            Err(fault)
        }
    }
}

/// The imports by their names and the function that sets the chip up, of a module that keeps all rules.
fn known(alloc: Global, module: &Module) -> Result<(List<ImportText>, u32), Fault>
    ensures { MatchResult result (λ k. (k.0 ≡ import_texts «module».now.imports) × IsValid «module».now k.1) (λ e. IsRefused «module».now e) }
{
    let chip_init = verdict(alloc, module)?;
    let imports = texts(alloc, module.imports.as_slice())?;
    Ok((imports, chip_init))
}

/// The function that sets the chip up, of a module that keeps all rules.
fn verdict(alloc: Global, module: &Module) -> Result<u32, Fault>
    ensures { MatchResult result (λ init. IsValid «module».now init) (λ e. IsRefused «module».now e) }
{
    let space = spaces(alloc, module)?;
    verdict_in(alloc, &space)
}

fn verdict_in(alloc: Global, space: &Space) -> Result<u32, Fault>
    ensures { MatchResult result (λ init. IsValid space.now.module.now init) (λ e. IsRefused space.now.module.now e) }
{
    match outside(space) {
        Some(refusal) => return Err(Fault::Refused(refusal)),
        None => {}
    }
    match body_fault(alloc, space)? {
        Some(refusal) => return Err(Fault::Refused(refusal)),
        None => {}
    }
    match chip_init(space) {
        Some(init) => Ok(init),
        None => Err(Fault::Refused(Refusal {
            number: CHIP_INIT,
            place: Place::Whole,
        })),
    }
}

/// The first rule outside bodies that the module breaks.
#[tactic(auto, unfolding(crate::specs::Rules::outside))]
fn outside(space: &Space) -> Option<Refusal>
    ensures { result ≡ outside_form space.now.module.now }
{
    or_then(
        forms(space),
        or_then(
            indexes(space),
            or_then(
                constants(space),
                or_then(names(space), or_then(insides(space), sizes(space))),
            ),
        ),
    )
}
