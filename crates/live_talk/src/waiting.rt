//! What a run waits for.
ghost use Rattle.std.specs.Prelude.{◌≡◌, ◌≤◌, ◌+◌, ℕ, IfOk, length, map};
ghost use Rattle.text_model.specs.Wave as wave;
ghost use Rattle.text_model.specs.Wave.{shown_value};
ghost use Rattle.vcd_text.specs.Variables.{source_of, variables_of};
ghost use Rattle.live_request.specs.Views.{viewed, condition_of};
ghost use Rattle.live_model.specs.Leg.{wait_for, waits_for};
ghost use Rattle.live_talk.specs.Waiting.{wait_of, seen, holds_by, held_by};

use crate::names::variable;
use arrayvec::ArrayVec;
use live_request::Condition;
use sim_base::{Drive, Level};
use sim_refusals::numbers::REQUEST_UNKNOWN;
use vcd_text::{Source, Variable, value_of};

/// How many conditions a run may have.
pub const MOST_WAITS: usize = 16;

/// A condition whose names were found.
#[derive(Clone, Copy)]
pub enum Wait {
    /// A variable that shows this has the value.
    Has(Source, u8),
    /// It has another value than in the cycle before.
    Turns(Source),
    /// So many bytes were sent.
    HasSent(u64),
}

impl Default for Wait {
    fn default() -> Wait {
        Wait::HasSent(0)
    }
}

/// The conditions of a run, in their order.
pub type Waits = ArrayVec<Wait, MOST_WAITS>;

/// What each of them saw in a cycle.
pub(crate) type Values = ArrayVec<u8, MOST_WAITS>;

/// A condition on parts is not known here.
fn wait_for(variables: &[Variable], condition: Condition<'_>) -> Result<Wait, u8>
    ensures { viewed wait_of result ≡ wait_for (variables_of variables.now) (condition_of condition.entry) }
{
    match condition {
        Condition::Level(name, value) => Ok(Wait::Has(variable(variables, name)?, value)),
        Condition::Edge(name) => Ok(Wait::Turns(variable(variables, name)?)),
        Condition::Sent(count) => Ok(Wait::HasSent(count)),
        _ => Err(REQUEST_UNKNOWN),
    }
}

/// The conditions with their names found, or the number of the first that has none.
pub fn waits_for(variables: &[Variable], conditions: &[Condition<'_>]) -> Result<Waits, u8>
    requires { length conditions.now ≤ 16 }
    ensures { viewed (λ ws. map wait_of ws.items) result ≡ waits_for (variables_of variables.now) (map condition_of conditions.now) }
{
    let mut waits = ArrayVec::new();
    for condition in conditions {
        waits.push(wait_for(variables, *condition)?);
    }
    Ok(waits)
}

impl Wait {
    /// What it looks at, by the levels and drives of a cycle.
    fn seen(self, levels: &[Level], drives: &[Drive]) -> u8
        ensures { result ≡ seen (shown_value levels.now drives.now) (wait_of self) }
    {
        match self {
            Wait::Has(shows, _) | Wait::Turns(shows) => value_of(shows, levels, drives),
            Wait::HasSent(_) => 0,
        }
    }

    fn holds(self, now: u8, before: u8, sent: u64) -> bool
        ensures { result ≡ holds_by now before sent (wait_of self) }
    {
        match self {
            Wait::Has(_, value) => now == value,
            Wait::Turns(_) => now != before,
            Wait::HasSent(count) => sent >= count,
        }
    }
}

/// What each looks at, by the levels and drives of a cycle.
pub(crate) fn values_seen(waits: &[Wait], levels: &[Level], drives: &[Drive]) -> Values
    requires { length waits.now ≤ 16 }
    ensures { result.items ≡ map (λ w. seen (shown_value levels.now drives.now) (wait_of w)) waits.now }
{
    let mut values = ArrayVec::new();
    for wait in waits {
        values.push(wait.seen(levels, drives));
    }
    values
}

/// The number of the first that holds by the levels and drives of a cycle, from 1, or 0. `before` is what they saw in the cycle
/// before.
pub(crate) fn held(
    waits: &[Wait],
    levels: &[Level],
    drives: &[Drive],
    before: &[u8],
    sent: u64,
) -> u8
    requires few { length waits.now ≤ 16 }
    requires all { length before.now ≡ length waits.now }
    ensures { (value : wave.Source → ℕ) → before.now ≡ map (λ w. seen value (wait_of w)) waits.now
        → result ≡ held_by (shown_value levels.now drives.now) value sent 1 (map wait_of waits.now) }
{
    for i in 0..waits.len() {
        let wait = waits[i];
        if wait.holds(wait.seen(levels, drives), before[i], sent) {
            return i as u8 + 1;
        }
    }
    0
}
