//! A leg: the cycles of one run.
ghost use Rattle.std.specs.Prelude.{◌≡◌, ℕ, ◌-◌, ◌<◌, ◌≤◌, ◌==◌, ◌&&◌, nat_lt, not, Some, None, length, map};
ghost use Rattle.live_probe.specs.Levels.{levels_in, drives_in, value_in};
ghost use Rattle.live_leg.specs.SentView.{most_sent};
ghost use Rattle.live_leg.specs.Talks.{MayTalk, HasGone, HasBroken};
ghost use Rattle.board_live.specs.LiveView.{bytes_by};
ghost use Rattle.live_model.specs.Leg as legs;
ghost use Rattle.live_talk.specs.Waiting.{wait_of};
ghost use Rattle.live_talk.specs.Legs.{Looked, Stepped, HasRun, BrokeBy};

use crate::waiting::{Wait, held, values_seen};
use live_leg::{Talk, advance, begin_leg};
use live_probe::Probe;
use part_law::Part;
use sim_base::{Bench, MOST_CYCLES, Steps, WriteEnd};
use std::snapshot::Snapshot;
use std::sync::ledger::Ledger;

/// Goes on by a stretch of one part or by one event, not after cycle n, and answers which of the waits holds then, from 1, or 0; None
/// where a write failed.
fn step<P: Part, B: Bench, L: Ledger>(
    talk: &mut Talk<P>,
    probe: &mut Probe,
    n: u64,
    waits: &[Wait],
    bench: &mut B,
    start: &Snapshot<B>,
    steps: &mut Steps<L>,
) -> Option<u8>
    requires order { talk.old.live.cycle < n }
    requires end { n ≤ MOST_CYCLES }
    requires few { length waits.now ≤ 16 }
    requires short { length talk.old.sent.bytes < most_sent }
    requires looked { Looked P.Part talk.old.live probe.old }
    requires talks { MayTalk P.Part talk.old (B.outside start.now.value) (B.outside bench.old) }
    ensures further { talk.old.live.cycle < talk.new.live.cycle }
    ensures within { talk.new.live.cycle ≤ n }
    ensures wiring { probe.new.wiring ≡ probe.old.wiring }
    ensures stepped { Stepped P.Part talk.old.live talk.new.live.cycle }
    ensures ok { (number : ℕ) → result ≡ Some number
        → number ≡ legs.held (value_in P.Part talk.old.live) (bytes_by P.Part talk.old.live) talk.new.live.cycle (map wait_of waits.now) }
    ensures looked { (number : ℕ) → result ≡ Some number → Looked P.Part talk.new.live probe.new }
    ensures gone { (number : ℕ) → result ≡ Some number
        → HasGone P.Part talk.old talk.new (B.outside start.now.value) (B.outside bench.old) (B.outside bench.new) steps.old steps.new }
    ensures broke { result ≡ None → HasBroken P.Part talk.old talk.new (B.outside start.now.value) (B.outside bench.old) (B.outside bench.new) }
    ensures requests { (B.outside bench.new).requests ≡ (B.outside bench.old).requests }
{
    let before = values_seen(waits, probe.levels(), probe.drives());
    match advance(talk, n, bench, start, steps) {
        WriteEnd::Ok => {}
        WriteEnd::Failed => return None,
    }
    probe.look(&talk.live);
    Some(held(
        waits,
        probe.levels(),
        probe.drives(),
        before.as_slice(),
        talk.sent.total(),
    ))
}

/// Whether a leg goes on.
fn goes_on(number: u8, cycle: u64, until: u64, full: bool) -> bool
    ensures { result ≡ (number == 0 && (nat_lt cycle until && not full)) }
{
    number == 0 && cycle < until && !full
}

/// Goes on up to cycle `until`, or to the first cycle in which a wait holds or by which the leg's bytes are many, and answers the
/// number of the wait, or 0; None where a write failed.
pub fn leg<P: Part, B: Bench, L: Ledger>(
    talk: &mut Talk<P>,
    probe: &mut Probe,
    until: u64,
    waits: &[Wait],
    bench: &mut B,
    start: &Snapshot<B>,
    steps: &mut Steps<L>,
) -> Option<u8>
    requires order { talk.old.live.cycle < until }
    requires end { until ≤ MOST_CYCLES }
    requires few { length waits.now ≤ 16 }
    requires wiring { probe.old.wiring ≡ talk.old.live.wiring }
    requires talks { MayTalk P.Part talk.old (B.outside start.now.value) (B.outside bench.old) }
    ensures wiring { probe.new.wiring ≡ probe.old.wiring }
    ensures ran { (number : ℕ) → result ≡ Some number → HasRun P.Part until (map wait_of waits.now) number talk.old talk.new
        (B.outside start.now.value) (B.outside bench.old) (B.outside bench.new) steps.old steps.new }
    ensures broke { result ≡ None → BrokeBy P.Part talk.old
        (legs.leg_end (value_in P.Part talk.old.live) (bytes_by P.Part talk.old.live) talk.old.live.cycle until (map wait_of waits.now))
        talk.new (B.outside start.now.value) (B.outside bench.old) (B.outside bench.new) }
    ensures requests { (B.outside bench.new).requests ≡ (B.outside bench.old).requests }
{
    begin_leg(talk);
    probe.look(&talk.live);
    let first = talk.live.cycle() + 1;
    let mut number = step(talk, probe, first, waits, bench, start, steps)?;
    while goes_on(number, talk.live.cycle(), until, talk.sent.is_full()) {
        number = step(talk, probe, until, waits, bench, start, steps)?;
    }
    Some(number)
}
