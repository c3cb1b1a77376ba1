//! The variables by the nets that they show.
ghost use Rattle.std.specs.Prelude.{◌≡◌, ℕ, ◌+◌, ◌<◌, ◌≤◌, List, length, map, Some, slice_get, slice_index};
ghost use Rattle.text_model.specs.Wave as wave;
ghost use Rattle.text_model.specs.Wave.{Net};
ghost use Rattle.vcd_text.specs.Variables.{source_of, variables_of};
ghost use Rattle.vcd_text.specs.Chains.{sources, IsNext, AreLinked, AreChains};

use crate::variable::{Source, Variable};

/// The variables, linked by the nets that they show.
#[derive(Clone, Copy)]
pub(crate) struct Links<'a> {
    pub(crate) variables: &'a [Variable],
    /// The first variable that shows each net, or how many variables there are.
    pub(crate) first: &'a [u16],
    /// After each variable the next that shows its net, or how many variables there are.
    pub(crate) next: &'a [u16],
}

/// A count of nets that has room for what a variable shows.
fn with_net(count: usize, shows: Source) -> usize
    ensures more { count ≤ result }
    ensures net { (n : ℕ) → source_of shows ≡ Net n → n < result }
{
    match shows {
        Source::Net(net) => count.max(net as usize + 1),
        Source::Strong(_) | Source::Weak(_) => count,
    }
}

/// One more than the greatest number of a net that is shown.
pub(crate) fn count_nets(variables: &[Variable]) -> usize
    ensures { (k n : ℕ) → slice_get (sources (variables_of variables.now)) k ≡ Some (Net n) → n < result }
{
    let mut count = 0;
    for variable in variables {
        count = with_net(count, variable.shows);
    }
    count
}

/// Puts variable `i` before those that are linked.
fn link(i: usize, shows: Source, first: &mut [u16], next: &mut [u16])
    requires few { i < 8930 }
    requires room { i < length next.old }
    requires net { (n : ℕ) → source_of shows ≡ Net n → n < length first.old }
    ensures { (all : List wave.Source) → slice_get all i ≡ Some (source_of shows)
        → AreLinked all first.old next.old (i + 1) → AreLinked all first.new next.new i }
{
    match shows {
        Source::Net(net) => {
            let net = net as usize;
            next[i] = first[net];
            first[net] = i as u16;
        }
        Source::Strong(_) | Source::Weak(_) => {}
    }
}

/// Links the variables.
pub(crate) fn link_all(variables: &[Variable], first: &mut [u16], next: &mut [u16])
    requires few { length variables.now ≤ 8930 }
    requires long { length next.old ≡ length variables.now }
    requires nets { (k n : ℕ) → slice_get (sources (variables_of variables.now)) k ≡ Some (Net n) → n < length first.old }
    requires blank { (n : ℕ) → n < length first.old → slice_index first.old n ≡ length variables.now }
    ensures { AreChains (sources (variables_of variables.now)) first.new next.new }
{
    let mut i = variables.len();
    while i > 0 {
        i -= 1;
        link(i, variables[i].shows, first, next);
    }
}

/// The first variable that shows a net, or how many variables there are.
pub(crate) fn first_of(net: u16, first: &[u16], count: usize) -> usize
    ensures { (all : List wave.Source) (next : List ℕ) → AreChains all first.now next → length all ≡ count → IsNext all net 0 result }
{
    match first.get(net as usize) {
        Some(at) => *at as usize,
        None => count,
    }
}
