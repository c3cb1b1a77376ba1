//! Times and values as lines.
ghost use Rattle.std.specs.Prelude.{◌≡◌, ◌≢◌, ℕ, List, ◌++◌, ◌+◌, ◌*◌, ◌<◌, ◌≤◌, length, slice_index, Some, true};
ghost use Rattle.text_model.specs.Wave.{Net, value_line, value_lines, time_line, changes, change_count, initial_values, shown_value};
ghost use Rattle.vcd_text.specs.Buffers.{BufferState};
ghost use Rattle.vcd_text.specs.Variables.{source_of, variables_of};
ghost use Rattle.vcd_text.specs.Chains.{values_at, NetsRest};
ghost use Rattle.vcd_text.specs.Written.{IsWritten};

use crate::buffer::Buffer;
use crate::row::Row;
use crate::value::of_source;
use crate::variable::{Source, Variable};
use sim_base::MOST_CYCLES;

/// The line of variable `i`.
#[inline]
fn push_value(i: usize, value: u8, out: &mut Buffer)
    requires few { i < 8930 }
    requires room { length out.old.text + 4 ≤ out.old.room }
    ensures text { out.new ≡ record out.old { text = out.old.text ++ value_line i value } }
    ensures short { length out.new.text ≤ length out.old.text + 4 }
{
    if i < 94 {
        out.push(&[value, 33 + i as u8, b'\n']);
    } else {
        let (high, low) = ((i - 94) / 94, (i - 94) % 94);
        out.push(&[value, 33 + high as u8, 33 + low as u8, b'\n']);
    }
}

fn push_values(now: &[u8], out: &mut Buffer)
    requires few { length now.now ≤ 8930 }
    requires room { length out.old.text + 4 * length now.now ≤ out.old.room }
    ensures text { out.new ≡ record out.old { text = out.old.text ++ value_lines 0 now.now } }
    ensures short { length out.new.text ≤ length out.old.text + 4 * length now.now }
{
    for (i, value) in now.iter().enumerate() {
        push_value(i, *value, out);
    }
}

/// Puts the value of variable `i` in place of that of the last row, and writes its line where that was another; answers
/// how many lines these are.
#[inline]
pub(crate) fn put_value(i: usize, value: u8, values: &mut [u8], out: &mut Buffer) -> u64
    requires few { i < 8930 }
    requires place { i < length values.old }
    requires room { length out.old.text + 4 ≤ out.old.room }
    ensures written { (last new : List ℕ) (from : BufferState) (count : ℕ) → length last ≡ length new → value ≡ slice_index new i
        → IsWritten last new from i count values.old out.old → IsWritten last new from (i + 1) (count + result) values.new out.new }
    ensures long { length values.new ≡ length values.old }
    ensures room { out.new.room ≡ out.old.room }
    ensures short { length out.new.text ≤ length out.old.text + 4 }
    ensures few { result ≤ 1 }
{
    if values[i] == value {
        return 0;
    }
    values[i] = value;
    push_value(i, value, out);
    1
}

/// Whether a variable shows a net, and another one than the two that alone changed, where such are told.
#[inline(always)]
fn is_passed(nets: Option<(u16, u16)>, shows: Source) -> bool
    ensures { result ≡ true → (p : ℕ × ℕ) × (n : ℕ) × (nets ≡ Some p) × (source_of shows ≡ Net n) × (n ≢ p.0) × (n ≢ p.1) }
{
    match (nets, shows) {
        (Some((one, two)), Source::Net(net)) => net != one && net != two,
        _ => false,
    }
}

/// Puts the value of variable `i`, which shows this, in place of that of the last row, unless it is passed over, and writes
/// its line where that was another; answers how many lines these are.
#[inline(always)]
fn put_shown(
    i: usize,
    nets: Option<(u16, u16)>,
    shows: Source,
    row: &Row,
    values: &mut [u8],
    out: &mut Buffer,
) -> u64
    requires few { i < 8930 }
    requires place { i < length values.old }
    requires room { length out.old.text + 4 ≤ out.old.room }
    requires rests { (p : ℕ × ℕ) (n : ℕ) → nets ≡ Some p → source_of shows ≡ Net n → n ≢ p.0 → n ≢ p.1
        → slice_index values.old i ≡ shown_value row.now.levels.now row.now.drives.now (source_of shows) }
    ensures written { (last new : List ℕ) (from : BufferState) (count : ℕ) → length last ≡ length new
        → shown_value row.now.levels.now row.now.drives.now (source_of shows) ≡ slice_index new i
        → IsWritten last new from i count values.old out.old → IsWritten last new from (i + 1) (count + result) values.new out.new }
    ensures few { result ≤ 1 }
{
    if is_passed(nets, shows) {
        return 0;
    }
    put_value(i, of_source(shows, row), values, out)
}

/// Puts the values of all variables in place of those of the last row, and writes the lines of those that are not what
/// they were; answers how many these are. Where two nets are told that alone changed, variables of others are passed over.
#[inline(never)]
pub(crate) fn push_changes(
    nets: Option<(u16, u16)>,
    variables: &[Variable],
    row: &Row,
    values: &mut [u8],
    out: &mut Buffer,
) -> u64
    requires few { length variables.now ≤ 8930 }
    requires long { length values.old ≡ length variables.now }
    requires nets { (p : ℕ × ℕ) → nets ≡ Some p → NetsRest p (variables_of variables.now) values.old row.now.levels.now row.now.drives.now }
    requires room { length out.old.text + 4 * length variables.now ≤ out.old.room }
    ensures values { values.new ≡ values_at row.now.levels.now row.now.drives.now (variables_of variables.now) }
    ensures text { out.new ≡ record out.old {
      text = out.old.text ++ changes 0 values.old (values_at row.now.levels.now row.now.drives.now (variables_of variables.now));
    } }
    ensures count { result ≡ change_count values.old (values_at row.now.levels.now row.now.drives.now (variables_of variables.now)) }
{
    let mut count = 0;
    for i in 0..variables.len() {
        count += put_shown(i, nets, variables[i].shows, row, values, out);
    }
    count
}

#[inline(never)]
pub fn push_time(cycle: u64, out: &mut Buffer)
    requires end { cycle ≤ MOST_CYCLES }
    requires room { length out.old.text + 42 ≤ out.old.room }
    ensures text { out.new ≡ record out.old { text = out.old.text ++ time_line cycle } }
    ensures short { length out.new.text ≤ length out.old.text + 42 }
{
    out.push(b"#");
    out.push_number(625 * cycle);
    out.push(b"\n");
}

pub fn push_initial_values(cycle: u64, now: &[u8], out: &mut Buffer)
    requires end { cycle ≤ MOST_CYCLES }
    requires few { length now.now ≤ 8930 }
    requires room { length out.old.text + 57 + 4 * length now.now ≤ out.old.room }
    ensures { out.new ≡ record out.old { text = out.old.text ++ initial_values cycle now.now } }
{
    push_time(cycle, out);
    out.push(b"$dumpvars\n");
    push_values(now, out);
    out.push(b"$end\n");
}

/// The head of a wave and the initial values.
#[inline(never)]
pub(crate) fn push_first(cycle: u64, head: &[u8], now: &[u8], out: &mut Buffer)
    requires end { cycle ≤ MOST_CYCLES }
    requires few { length now.now ≤ 8930 }
    requires room { length out.old.text + length head.now + 57 + 4 * length now.now ≤ out.old.room }
    ensures { out.new ≡ record out.old { text = out.old.text ++ (head.now ++ initial_values cycle now.now) } }
{
    out.push(head);
    push_initial_values(cycle, now, out);
}
