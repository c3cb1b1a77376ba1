//! The text of a row, which looks at all variables or at those of one net or two.
ghost use Rattle.std.specs.Prelude.{◌≡◌, ℕ, ◌+◌, ◌-◌, ◌*◌, ◌^◌, ◌<◌, ◌≤◌, ◌++◌, min, List, length, Some, slice_index, if◌then◌else◌};
ghost use Rattle.text_model.specs.Wave as wave;
ghost use Rattle.text_model.specs.Wave.{changes, change_count, initial_values, value_changes};
ghost use Rattle.vcd_text.specs.Buffers.{BufferState};
ghost use Rattle.vcd_text.specs.Chains.{sources, AreChains, IsNext, OnChain, IsRun, OthersRest, RestBut};
ghost use Rattle.vcd_text.specs.Linked.{values_in, variables_in};
ghost use Rattle.vcd_text.specs.Written.{IsWritten};

use crate::buffer::Buffer;
use crate::chains::{Links, first_of};
use crate::changes::{push_changes, push_first, push_time, put_value};
use crate::row::Row;
use crate::value::{fill_values, of_net};
use sim_base::MOST_CYCLES;

/// The variables that may have other values in a row than in the one before.
#[derive(Clone, Copy)]
pub(crate) enum Scope {
    /// All.
    All,
    /// Those of two nets, and those of pins.
    NetsAndPins(u16, u16),
    /// Those of two nets.
    Nets(u16, u16),
}

/// Puts the value of a net's variables in place of those of the last row, from the one at a place on up to a bound, and
/// writes and counts the lines of those that are not what they were; answers where the next one is.
#[inline(always)]
fn push_run(
    at: usize,
    bound: usize,
    value: u8,
    next: &[u16],
    values: &mut [u8],
    out: &mut Buffer,
    count: &mut u64,
) -> usize
    requires few { length values.old ≤ 8930 }
    requires inside { bound ≤ length values.old }
    requires long { length next.now ≡ length values.old }
    requires chain { OnChain next.now (min at bound) at }
    requires room { length out.old.text + 4 * (bound - at) ≤ out.old.room }
    requires counts { count.old + (bound - at) < 2 ^ 64 }
    ensures written { (c : OnChain next.now (min at bound) at) (last new : List ℕ) (from : BufferState) → IsRun c.shows c.net last new at bound value
        → IsWritten last new from (min at bound) count.old values.old out.old → IsWritten last new from bound count.new values.new out.new }
    ensures next { (c : OnChain next.now (min at bound) at) → IsNext c.shows c.net bound result }
    ensures order { at ≤ result }
{
    let mut at = at;
    while at < bound {
        *count += put_value(at, value, values, out);
        at = next[at] as usize;
    }
    at
}

/// Puts the values of the variables that show one of two nets in place of those of the last row, and writes the
/// lines of those that are not what they were; answers how many these are.
fn push_chain(
    one: u16,
    two: u16,
    links: &Links,
    row: &Row,
    values: &mut [u8],
    out: &mut Buffer,
) -> u64
    requires few { length links.now.variables.now ≤ 8930 }
    requires long { length values.old ≡ length links.now.variables.now }
    requires chains { AreChains (sources (variables_in links.now)) links.now.first.now links.now.next.now }
    requires others { OthersRest (one, two) (variables_in links.now) values.old row.now.levels.now row.now.drives.now }
    requires room { length out.old.text + 4 * length links.now.variables.now ≤ out.old.room }
    ensures values { values.new ≡ values_in row.now links.now }
    ensures text { out.new ≡ record out.old { text = out.old.text ++ changes 0 values.old (values_in row.now links.now) } }
    ensures count { result ≡ change_count values.old (values_in row.now links.now) }
{
    let value_one = of_net(one, row.levels);
    let mut count = 0;
    let mut a = first_of(one, links.first, links.variables.len());
    let mut b = first_of(two, links.first, links.variables.len());
    if a == b {
        // one net, or two that no variable shows
        push_run(
            a,
            values.len(),
            value_one,
            links.next,
            values,
            out,
            &mut count,
        );
        return count;
    }
    let value_two = of_net(two, row.levels);
    while a != b {
        a = push_run(a, b, value_one, links.next, values, out, &mut count);
        b = push_run(b, a, value_two, links.next, values, out, &mut count);
    }
    count
}

/// The same of the variables of a scope. `push_changes` gets a copy of the row, so the row itself can stay in registers.
fn push_lines(scope: Scope, links: &Links, row: &Row, values: &mut [u8], out: &mut Buffer) -> u64
    requires few { length links.now.variables.now ≤ 8930 }
    requires long { length values.old ≡ length links.now.variables.now }
    requires chains { AreChains (sources (variables_in links.now)) links.now.first.now links.now.next.now }
    requires rest { RestBut scope (variables_in links.now) values.old row.now.levels.now row.now.drives.now }
    requires room { length out.old.text + 4 * length links.now.variables.now ≤ out.old.room }
    ensures values { values.new ≡ values_in row.now links.now }
    ensures text { out.new ≡ record out.old { text = out.old.text ++ changes 0 values.old (values_in row.now links.now) } }
    ensures count { result ≡ change_count values.old (values_in row.now links.now) }
{
    match scope {
        Scope::All => push_changes(None, links.variables, &{ *row }, values, out),
        Scope::NetsAndPins(one, two) => {
            push_changes(Some((one, two)), links.variables, &{ *row }, values, out)
        }
        Scope::Nets(one, two) => push_chain(one, two, links, row, values, out),
    }
}

/// The value changes of a cycle, and how many there are.
fn push_later(scope: Scope, links: &Links, row: &Row, values: &mut [u8], out: &mut Buffer) -> u64
    requires end { row.now.cycle ≤ MOST_CYCLES }
    requires few { length links.now.variables.now ≤ 8930 }
    requires long { length values.old ≡ length links.now.variables.now }
    requires chains { AreChains (sources (variables_in links.now)) links.now.first.now links.now.next.now }
    requires rest { RestBut scope (variables_in links.now) values.old row.now.levels.now row.now.drives.now }
    requires room { length out.old.text + 42 + 4 * length links.now.variables.now ≤ out.old.room }
    ensures values { values.new ≡ values_in row.now links.now }
    ensures text { out.new ≡ record out.old { text = out.old.text ++ value_changes row.now.cycle values.old (values_in row.now links.now) } }
    ensures count { result ≡ change_count values.old (values_in row.now links.now) }
{
    let start = out.text().len();
    push_time(row.cycle, out);
    let count = push_lines(scope, links, row, values, out);
    if count == 0 {
        out.truncate(start);
    }
    count
}

/// The text of a row, behind another or the first, with its values in place of those of the last one; how many value
/// changes there are.
pub(crate) fn push_row(
    started: bool,
    scope: Scope,
    head: &[u8],
    links: &Links,
    row: &Row,
    values: &mut [u8],
    out: &mut Buffer,
) -> u64
    requires end { row.now.cycle ≤ MOST_CYCLES }
    requires few { length links.now.variables.now ≤ 8930 }
    requires long { length values.old ≡ length links.now.variables.now }
    requires chains { AreChains (sources (variables_in links.now)) links.now.first.now links.now.next.now }
    requires rest { RestBut scope (variables_in links.now) values.old row.now.levels.now row.now.drives.now }
    requires room { length out.old.text + length head.now + 57 + 4 * length links.now.variables.now ≤ out.old.room }
    ensures values { values.new ≡ values_in row.now links.now }
    ensures text { out.new ≡ record out.old {
      text = out.old.text ++ (if started then value_changes row.now.cycle values.old (values_in row.now links.now)
          else head.now ++ initial_values row.now.cycle (values_in row.now links.now));
    } }
    ensures count { result ≡ (if started then change_count values.old (values_in row.now links.now) else 0) }
{
    if started {
        push_later(scope, links, row, values, out)
    } else {
        fill_values(links.variables, &{ *row }, values);
        push_first(row.cycle, head, values, out);
        0
    }
}
