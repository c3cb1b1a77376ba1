//! Requests that ask for a board of any parts.
ghost use Rattle.std.specs.Prelude.{◌≡◌, ◌≤◌, ℕ, Bool, Err, length, map};
ghost use Rattle.std.specs.Fmt.{decimal};
ghost use Rattle.text_model.specs.Wave.{begun_text};
ghost use Rattle.vcd_text.specs.Variables.{variables_of};
ghost use Rattle.board_live.specs.LiveView.{bytes_by, rows_by};
ghost use Rattle.live_request.specs.Views.{act_of, condition_of};
ghost use Rattle.live_probe.specs.Levels.{value_in};
ghost use Rattle.live_leg.specs.Talks.{MayTalk, tied_of};
ghost use Rattle.live_model.specs.Talk as talks;
ghost use Rattle.live_talk.specs.Answers.{Answers, standing_of};

use crate::acts::input_of;
use crate::answers::{say_answer, say_leg, say_no};
use crate::legs::leg;
use crate::names::variable;
use crate::waiting::waits_for;
use board_build::PlanPart;
use live_leg::{Talk, flush, give, wave_length};
use live_probe::Probe;
use live_request::{Act, Condition};
use live_text::{Line, OUT_OF_MEMORY};
use part_law::Part;
use sim_base::{Bench, MOST_CYCLES, Steps, WriteEnd};
use sim_refusals::numbers::{REQUEST_PAST, REQUEST_WAVE};
use std::snapshot::Snapshot;
use std::sync::ledger::Ledger;

fn number_line(n: u64) -> Line
    ensures text { result ≡ decimal n }
    ensures short { length result ≤ 40 }
{
    let mut line = Line::new();
    line.push_number(n);
    line
}

/// Runs up to cycle `until`, or to the first cycle in which a condition holds or by which its bytes are many.
pub fn run<P: Part, B: Bench, L: Ledger>(
    talk: &mut Talk<P>,
    probe: &mut Probe,
    until: u64,
    conditions: &[Condition<'_>],
    bench: &mut B,
    start: &Snapshot<B>,
    steps: &mut Steps<L>,
) -> WriteEnd
    requires few { length conditions.now ≤ 16 }
    requires wiring { probe.old.wiring ≡ talk.old.live.wiring }
    requires talks { MayTalk P.Part talk.old (B.outside start.now.value) (B.outside bench.old) }
    ensures wiring { probe.new.wiring ≡ probe.old.wiring }
    ensures answers { Answers P.Part (talks.run (value_in P.Part talk.old.live) (bytes_by P.Part talk.old.live) talk.old.head.variables
        (standing_of talk.old.live) until (map condition_of conditions.now))
        talk.old result talk.new (B.outside start.now.value) (B.outside bench.old) (B.outside bench.new) steps.old steps.new }
    ensures requests { (B.outside bench.new).requests ≡ (B.outside bench.old).requests }
{
    let waits = match waits_for(talk.head.variables(), conditions) {
        Ok(waits) => waits,
        Err(number) => return say_no(talk, number, bench, start),
    };
    let until = until.min(MOST_CYCLES);
    if until <= talk.live.cycle() {
        return say_no(talk, REQUEST_PAST, bench, start);
    }
    match leg(talk, probe, until, waits.as_slice(), bench, start, steps) {
        Some(number) => say_leg(
            talk,
            number_line(u64::from(number)).as_slice(),
            bench,
            start,
        ),
        None => WriteEnd::Failed,
    }
}

/// Gives a part the value of a line of a script.
pub fn act<P: Part, B: Bench>(
    talk: &mut Talk<P>,
    parts: &[PlanPart],
    act: Act<'_>,
    bench: &mut B,
    start: &Snapshot<B>,
) -> WriteEnd
    requires parts { length parts.now ≡ length talk.old.live.start }
    requires talks { MayTalk P.Part talk.old (B.outside start.now.value) (B.outside bench.old) }
    ensures answers { (lacks : Bool) × ((steps : ℕ) → Answers P.Part (talks.lacking lacks (talks.acts parts.now (standing_of talk.old.live) (act_of act.entry)))
        talk.old result talk.new (B.outside start.now.value) (B.outside bench.old) (B.outside bench.new) steps steps) }
    ensures requests { (B.outside bench.new).requests ≡ (B.outside bench.old).requests }
{
    let input = match input_of(parts, talk.live.cycle(), act) {
        Ok(input) => input,
        Err(number) => return say_no(talk, number, bench, start),
    };
    match give(talk, input) {
        Ok(()) => say_answer(talk, &[], &[], bench, start),
        Err(_) => say_no(talk, OUT_OF_MEMORY, bench, start),
    }
}

/// Says the level of a variable in the live board's cycle.
pub fn level<P: Part, B: Bench>(
    talk: &mut Talk<P>,
    probe: &mut Probe,
    name: &[u8],
    bench: &mut B,
    start: &Snapshot<B>,
) -> WriteEnd
    requires wiring { probe.old.wiring ≡ talk.old.live.wiring }
    requires talks { MayTalk P.Part talk.old (B.outside start.now.value) (B.outside bench.old) }
    ensures wiring { probe.new.wiring ≡ probe.old.wiring }
    ensures answers { (steps : ℕ) → Answers P.Part (talks.level (value_in P.Part talk.old.live) (bytes_by P.Part talk.old.live) talk.old.head.variables
        (standing_of talk.old.live) name.now)
        talk.old result talk.new (B.outside start.now.value) (B.outside bench.old) (B.outside bench.new) steps steps }
    ensures requests { (B.outside bench.new).requests ≡ (B.outside bench.old).requests }
{
    match variable(talk.head.variables(), name) {
        Ok(shows) => {
            probe.look(&talk.live);
            say_answer(talk, &[probe.value(shows)], &[], bench, start)
        }
        Err(number) => say_no(talk, number, bench, start),
    }
}

/// Writes what the file of the wave still lacks, and says its length.
pub fn wave<P: Part, B: Bench>(
    talk: &mut Talk<P>,
    wanted: bool,
    bench: &mut B,
    start: &Snapshot<B>,
) -> WriteEnd
    requires wanted { wanted ≡ (tied_of talk.old).wave }
    requires talks { MayTalk P.Part talk.old (B.outside start.now.value) (B.outside bench.old) }
    ensures answers { (steps : ℕ) → Answers P.Part (talks.wave_length wanted
        (begun_text talk.old.head.variables (rows_by P.Part talk.old.live talk.old.live.cycle)) (standing_of talk.old.live))
        talk.old result talk.new (B.outside start.now.value) (B.outside bench.old) (B.outside bench.new) steps steps }
    ensures requests { (B.outside bench.new).requests ≡ (B.outside bench.old).requests }
{
    if !wanted {
        return say_no(talk, REQUEST_WAVE, bench, start);
    }
    match flush(talk, bench, start) {
        WriteEnd::Ok => {}
        WriteEnd::Failed => return WriteEnd::Failed,
    }
    say_answer(
        talk,
        number_line(wave_length(talk)).as_slice(),
        &[],
        bench,
        start,
    )
}

/// Says a text as the block of an answer.
pub fn page<P: Part, B: Bench>(
    talk: &mut Talk<P>,
    text: &[u8],
    bench: &mut B,
    start: &Snapshot<B>,
) -> WriteEnd
    requires { MayTalk P.Part talk.old (B.outside start.now.value) (B.outside bench.old) }
    ensures answers { (steps : ℕ) → Answers P.Part (talks.report text.now (standing_of talk.old.live))
        talk.old result talk.new (B.outside start.now.value) (B.outside bench.old) (B.outside bench.new) steps steps }
    ensures requests { (B.outside bench.new).requests ≡ (B.outside bench.old).requests }
{
    say_answer(talk, &[], text, bench, start)
}

/// Says that a request is refused: nothing has happened.
pub fn refuse<P: Part, B: Bench>(
    talk: &mut Talk<P>,
    number: u8,
    bench: &mut B,
    start: &Snapshot<B>,
) -> WriteEnd
    requires { MayTalk P.Part talk.old (B.outside start.now.value) (B.outside bench.old) }
    ensures answers { (steps : ℕ) → Answers P.Part (Err number)
        talk.old result talk.new (B.outside start.now.value) (B.outside bench.old) (B.outside bench.new) steps steps }
    ensures requests { (B.outside bench.new).requests ≡ (B.outside bench.old).requests }
{
    say_no(talk, number, bench, start)
}
