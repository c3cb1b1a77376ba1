//! The module of a web page: one function for the page's code to call.
#![tactic(auto)]

ghost use Rattle.web_call.specs.Entries.{given};
ghost use Rattle.web_call.specs.Answer.{IsAnswer, IsNamed};

use std::alloc::Global;
use web_call::call;

/// `call` of `web_call` under the name by which the module hands it out.
#[unsafe(no_mangle)]
pub extern "C" fn mudflatjar(
    alloc: Global,
    input: &[u8],
    serial: u32,
    wave: u32,
    report: u32,
    out: &mut [u8],
) -> u32
    ensures answer { IsAnswer result (given input.now) serial wave report out.new }
    ensures named { IsNamed result }
{
    call(alloc, input, serial, wave, report, out)
}
