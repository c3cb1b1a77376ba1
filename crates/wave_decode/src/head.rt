//! The head of a wave.
ghost use Rattle.std.specs.Prelude.{◌≡◌, ◌<◌, ◌≤◌, ◌+◌, length, IfOk};
ghost use Rattle.std.specs.Option.{option_map};
ghost use Rattle.sim_base.specs.Reads.{Reads};
ghost use Rattle.wave_decode.specs.Head.{head_of};
ghost use Rattle.wave_decode.specs.Levels.{number_in};
ghost use Rattle.wave_decode.specs.Names.{found, texts_in};

use crate::names::next_name;
use indexmap::IndexSet;
use sim_base::Fault;
use sim_refusals::numbers::WAVE_HEAD;
use std::alloc::Global;
use wave_lines::{behind, refused};

const FIRST_LINES: &[u8] = b"$timescale 100 ps $end\n$scope module board $end\n";

const LAST_LINES: &[u8] = b"$upscope $end\n$enddefinitions $end\n";

/// How many variables a wave has, the numbers of those that have one name or two, and what stands
/// after its head, with the number of its first line.
#[derive(Clone, Copy)]
pub(crate) struct Head<'a> {
    pub(crate) variables: usize,
    pub(crate) first: Option<usize>,
    pub(crate) second: Option<Option<usize>>,
    pub(crate) number: u32,
    pub(crate) rest: &'a [u8],
}

fn number_in(names: &IndexSet<&[u8]>, name: &str) -> Option<usize>
    ensures { result ≡ number_in (texts_in names.now.keys) name.now }
{
    names.get_index_of(name.as_bytes())
}

fn second_in(names: &IndexSet<&[u8]>, name: Option<&str>) -> Option<Option<usize>>
    ensures { result ≡ option_map (number_in (texts_in names.now.keys)) (option_map (λ s. s.now) name.entry) }
{
    match name {
        Some(name) => Some(number_in(names, name)),
        None => None,
    }
}

/// The head of a wave, in which one name or two are looked up.
pub(crate) fn read_head<'a>(
    alloc: Global,
    first: &str,
    second: Option<&str>,
    bytes: &'a [u8],
) -> Result<Head<'a>, Fault>
    requires { length bytes.now < 4294967295 }
    ensures reads { Reads (λ h. record { variables = h.variables; first = h.first; second = h.second; number = h.number; rest = h.rest.now }) result (found first.now (option_map (λ s. s.now) second.entry) (head_of bytes.now)) }
    ensures short { IfOk result (λ h. h.number + length h.rest.now ≤ length bytes.now + 1) }
    ensures begun { IfOk result (λ h. 1 ≤ h.number) }
{
    let (mut number, mut rest) = match behind(1, FIRST_LINES, bytes) {
        Ok(start) => start,
        Err(refusal) => return Err(Fault::Refused(refusal)),
    };
    let mut names = IndexSet::new(alloc);
    while let Some((name, more)) = next_name(names.len(), rest) {
        if !names.insert(name)? {
            return Err(Fault::Refused(refused(WAVE_HEAD, number)));
        }
        rest = more;
        number += 1;
    }
    let variables = names.len();
    if variables == 0 {
        return Err(Fault::Refused(refused(WAVE_HEAD, number)));
    }
    match behind(number, LAST_LINES, rest) {
        Ok((number, rest)) => Ok(Head {
            variables,
            first: number_in(&names, first),
            second: second_in(&names, second),
            number,
            rest,
        }),
        Err(refusal) => Err(Fault::Refused(refusal)),
    }
}
