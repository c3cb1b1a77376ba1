//! The variables of a wave, and the text of one row after another.
ghost use Rattle.std.specs.Prelude.{◌≡◌, ◌≢◌, ℕ, ◌≤◌, List, [], ◌++◌, Some, length, IfOk, replicate, vec_len, eqb, true, false};
ghost use Rattle.std.specs.List.{list_any};
ghost use Rattle.text_model.specs.Wave.{time_line};
ghost use Rattle.vcd_text.specs.Variables.{variables_of};
ghost use Rattle.vcd_text.specs.Heads.{gathered, after_row, changed_by};
ghost use Rattle.text_model.specs.Wave.{char_z, head};
ghost use Rattle.vcd_text.specs.Chains.{AreChains, HasSeen, NetsRest, PinsRest, RestBut, sources};
ghost use Rattle.vcd_text.specs.Pins.{AreAmong, drive_as_kept};
ghost use Rattle.sim_base.specs.Rows.{AreBut};
ghost use Rattle.sim_base.specs.declared.signal.Level.{Level};

use crate::buffer::Buffer;
use crate::chains::{Links, count_nets, link_all};
use crate::changes::push_time;
use crate::declarations::head_text;
use crate::follow::{Scope, push_row};
use crate::pins::{drive_as_kept, keep, pins_of};
use crate::row::Row;
use crate::variable::Variable;
use sim_base::{Drive, Level, List, MOST_CYCLES, OutOfMemory};
use std::alloc::{AllocError, Global};
use std::marker::Model;

/// How much text may be kept before a row, in bytes.
const GATHERED: usize = 16_384;

fn unknown(alloc: Global, count: usize) -> Result<Vec<u8>, AllocError>
    ensures { IfOk result (λ v. v.items ≡ replicate count char_z) }
{
    vec![in alloc; b'z'; count]
}

fn numbers(alloc: Global, number: u16, count: usize) -> Result<Vec<u16>, AllocError>
    ensures { IfOk result (λ v. v.items ≡ replicate count number) }
{
    vec![in alloc; number; count]
}

/// The nets that are told, where they are one, twice, or two.
#[inline]
fn two_of(changed: &[u16]) -> Option<(u16, u16)>
    ensures { (p : ℕ × ℕ) → result ≡ Some p → (n : ℕ) → n ≢ p.0 → n ≢ p.1 → list_any (eqb n) changed.now ≡ false }
{
    match changed {
        [one] => Some((*one, *one)),
        [one, two] => Some((*one, *two)),
        _ => None,
    }
}

/// The values before any row, and the text of the head.
fn first_texts(alloc: Global, variables: &[Variable]) -> Result<(Vec<u8>, Vec<u8>), OutOfMemory>
    requires { length variables.now ≤ 8930 }
    ensures values { IfOk result (λ v. v.0.items ≡ replicate (length variables.now) char_z) }
    ensures head { IfOk result (λ v. v.1.items ≡ head (variables_of variables.now)) }
{
    let values = unknown(alloc, variables.len())?;
    let head_bytes = head_text(alloc, variables)?;
    Ok((values, head_bytes))
}

/// The first variable that shows each net and behind each variable the next that shows its net, and
/// the pins that variables show.
fn linked(
    alloc: Global,
    variables: &[Variable],
) -> Result<(Vec<u16>, Vec<u16>, Vec<(u16, Drive)>), AllocError>
    requires { length variables.now ≤ 8930 }
    ensures chains { IfOk result (λ v. AreChains (sources (variables_of variables.now)) v.0.items v.1.items) }
    ensures among { IfOk result (λ v. AreAmong v.2.items (sources (variables_of variables.now))) }
    ensures kept { IfOk result (λ v. drive_as_kept [] v.2.items ≡ true) }
{
    let mut first = numbers(alloc, variables.len() as u16, count_nets(variables))?;
    let mut next = numbers(alloc, 0, variables.len())?;
    link_all(variables, &mut first, &mut next);
    let pins = pins_of(alloc, variables)?;
    Ok((first, next, pins))
}

/// The variables of a wave and the text of its head, with the room for the values of the last row
/// and for the text of rows, which is kept until it is much.
#[derive(Drop)]
pub struct WaveHead {
    variables: List<Variable>,
    head_bytes: Vec<u8>,
    /// The first variable that shows each net, and behind each variable the next that shows its net.
    first: Vec<u16>,
    next: Vec<u16>,
    /// The pins that variables show, each with what it drove in the last row.
    pins: Vec<(u16, Drive)>,
    /// The values of the last row.
    values: Vec<u8>,
    text: Buffer,
    started: bool,
}

impl Model for WaveHead {
    ghost use Rattle.std.specs.Prelude.{◌≡◌, ◌≤◌, ◌+◌, length, vec_len};
    ghost use Rattle.text_model.specs.Wave.{head};
    ghost use Rattle.vcd_text.specs.Heads.{HeadState, gathered, text_room};
    ghost use Rattle.vcd_text.specs.Chains.{sources, AreChains};
    ghost use Rattle.vcd_text.specs.Pins.{AreAmong, AreKept};

    ghost Value = { HeadState };

    ghost use Rattle.vcd_text.specs.Variables.{variables_of};

    ghost view = { λ a. record { variables = variables_of a.variables; values = a.values.items; text = a.text.text; started = a.started } };

    ghost invariant = { λ a. record {
      few : length a.variables ≤ 8930;
      head_is : a.head_bytes.items ≡ head (variables_of a.variables);
      values_long : vec_len a.values ≡ length a.variables;
      room_is : gathered + text_room (variables_of a.variables) ≤ a.text.room;
      chains : AreChains (sources (variables_of a.variables)) a.first.items a.next.items;
      among : AreAmong a.pins.items (sources (variables_of a.variables));
      kept : AreKept a.pins.items (variables_of a.variables) a.values.items;
    } };
}

impl WaveHead {
    /// The head over at most 8,930 variables, as many as there are identifier codes of one and two
    /// characters.
    pub fn of(alloc: Global, variables: List<Variable>) -> Result<WaveHead, OutOfMemory>
        requires { length variables ≤ 8930 }
        ensures { IfOk result (λ h. h.variables ≡ variables_of variables) }
    {
        let list = variables.as_slice();
        let (values, head_bytes) = first_texts(alloc, list)?;
        let (first, next, pins) = linked(alloc, list)?;
        let text = Buffer::with_room(
            alloc,
            GATHERED + head_bytes.len() + 57 + 4 * variables.len(),
        )?;
        Ok(WaveHead {
            variables,
            head_bytes,
            first,
            next,
            pins,
            values,
            text,
            started: false,
        })
    }

    /// The variables in their order.
    pub fn variables(&self) -> &[Variable]
        ensures { variables_of result.now ≡ self.now.variables }
    {
        self.variables.as_slice()
    }

    /// The text of the head.
    pub fn head_bytes(&self) -> &[u8]
        ensures { result.now ≡ head self.now.variables }
    {
        &self.head_bytes
    }

    /// Makes the next row the first one, and keeps no text.
    pub(crate) fn restart(&mut self)
        ensures { self.new ≡ record self.old { text = []; started = false } }
    {
        self.text.clear();
        self.started = false;
    }

    /// Whether there was a row.
    pub(crate) fn has_started(&self) -> bool
        ensures { result ≡ self.now.started }
    {
        self.started
    }

    /// Counts a row that nobody looks at: the next one is not the first.
    pub(crate) fn pass_row(&mut self)
        ensures { self.new ≡ record self.old { started = true } }
    {
        self.started = true;
    }

    /// Whether each variable that shows a pin has the value that it had.
    fn pins_rest(&self, drives: &[Drive]) -> bool
        ensures { result ≡ true → (levels : List Level) → PinsRest self.now.variables self.now.values levels drives.now }
    {
        drive_as_kept(drives, &self.pins)
    }

    /// The scope of a row behind another, of which these nets are told.
    fn scope_of_nets(&self, one: u16, two: u16, drives: &[Drive]) -> Scope
        ensures { (levels : List Level) → NetsRest (one, two) self.now.variables self.now.values levels drives.now
            → RestBut result self.now.variables self.now.values levels drives.now }
    {
        if self.pins_rest(drives) {
            Scope::Nets(one, two)
        } else {
            Scope::NetsAndPins(one, two)
        }
    }

    /// The variables that may have other values in a row than in the one before.
    fn scope_of(&self, levels: &[Level], drives: &[Drive], changed: &[u16]) -> Scope
        requires { self.now.started ≡ true → (before : List Level) × HasSeen self.now.variables self.now.values before × AreBut changed.now before levels.now }
        ensures { RestBut result self.now.variables self.now.values levels.now drives.now }
    {
        match two_of(changed) {
            Some((one, two)) if self.has_started() => self.scope_of_nets(one, two, drives),
            _ => Scope::All,
        }
    }

    /// Makes the text of the next row, for which it looks at the variables of a scope alone.
    fn take(&mut self, cycle: u64, scope: Scope, levels: &[Level], drives: &[Drive]) -> u64
        requires end { cycle ≤ MOST_CYCLES }
        requires room { length self.old.text ≤ gathered }
        requires rest { RestBut scope self.old.variables self.old.values levels.now drives.now }
        ensures text { self.new ≡ after_row self.old (record { cycle = cycle; levels = levels.now; drives = drives.now }) }
        ensures count { result ≡ changed_by self.old (record { cycle = cycle; levels = levels.now; drives = drives.now }) }
    {
        let count = push_row(
            self.started,
            scope,
            &self.head_bytes,
            &Links {
                variables: self.variables.as_slice(),
                first: &self.first,
                next: &self.next,
            },
            &Row {
                cycle,
                levels,
                drives,
            },
            &mut self.values,
            &mut self.text,
        );
        keep(scope, drives, &mut self.pins);
        self.started = true;
        count
    }

    /// Makes the text of the next row behind what is kept, and answers how many values it changes.
    /// Where one net is told, or two, only the variables of these and of pins may have other values.
    pub(crate) fn take_row(
        &mut self,
        cycle: u64,
        levels: &[Level],
        drives: &[Drive],
        changed: &[u16],
    ) -> u64
        requires end { cycle ≤ MOST_CYCLES }
        requires room { length self.old.text ≤ gathered }
        requires told { self.old.started ≡ true → (before : List Level) × HasSeen self.old.variables self.old.values before
            × AreBut changed.now before levels.now }
        ensures text { self.new ≡ after_row self.old (record { cycle = cycle; levels = levels.now; drives = drives.now }) }
        ensures count { result ≡ changed_by self.old (record { cycle = cycle; levels = levels.now; drives = drives.now }) }
    {
        let scope = self.scope_of(levels, drives, changed);
        self.take(cycle, scope, levels, drives)
    }

    /// Makes the text of the time at which the run ends behind what is kept.
    pub(crate) fn take_end(&mut self, cycle: u64)
        requires end { cycle ≤ MOST_CYCLES }
        requires room { length self.old.text ≤ gathered }
        ensures { self.new ≡ record self.old { text = self.old.text ++ time_line cycle } }
    {
        push_time(cycle, &mut self.text);
    }

    /// The text that is kept.
    pub(crate) fn text(&self) -> &[u8]
        ensures { result.now ≡ self.now.text }
    {
        self.text.text()
    }

    /// Whether another row fits behind the text that is kept.
    pub(crate) fn has_room(&self) -> bool
        ensures { result ≡ true → length self.now.text ≤ gathered }
    {
        self.text.text().len() <= GATHERED
    }

    /// Keeps no text.
    pub(crate) fn clear(&mut self)
        ensures { self.new ≡ record self.old { text = [] } }
    {
        self.text.clear();
    }
}
