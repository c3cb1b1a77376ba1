//! The top call.
ghost use Rattle.std.specs.Prelude.{◌≡◌, map, string_bytes};
ghost use Rattle.cli_words_model.specs.Request.{request_of, Decode};
ghost use Rattle.sim_outcome_model.specs.Happens.{Ends};
ghost use Rattle.sim_outcome_model.specs.Promises.{WordsAlone, HasCause, IsStatus};
ghost use Rattle.sim_outcome_model.specs.Work.{SaidNothing};
ghost use Rattle.sim_cli.specs.Promises.{Happens, HappensIsolated, HappensRepeated, Counts, CountsNone, Does};
ghost use Rattle.sim_cli.specs.Promises.{IsAnswered, IsComplete, HoldsAnswer, IsStopped, IsTrueStop, HoldsFront, ComplainsAlone, IsBrokenOff, CountsWakes};
ghost use Rattle.sim_cli.specs.Promises.{HoldsPlay, HoldsAlone, HoldsWorlds, HoldsShown, HoldsRepeat};
ghost use Rattle.sim_io.specs.Outcomes.{outcome_of};
ghost use Rattle.cli_words.specs.Asked.{bus_by, named_by, IsNamedBus};
ghost use Rattle.board_outputs.specs.Outputs.{outputs_of};
ghost use Rattle.sim_cli.specs.Answers.{outputs_to, Answers};

use board_outputs::Outputs;
use cli_bare::bare;
use cli_decode::decode;
use cli_make::make;
use cli_module::check_module;
use cli_project::{ScriptedProject, check};
use cli_replay::replay;
use cli_run::run;
use cli_serve::serve;
use cli_twin::twin;
use cli_words::{NamedBus, NamedFiles, Request, read_words};
use sim_base::{Bench, Steps};
use sim_io::{WorkEnd, status, tell};
use std::alloc::Global;
use std::sync::ledger::Ledger;
use wave_decode::Bus;

/// The bytes of a run go to Serial, its wave and its report to the files that are named.
fn outputs_to(named: NamedFiles<'_>) -> Outputs<'_>
    ensures { outputs_of result ≡ outputs_to (named_by named.entry) }
{
    Outputs {
        serial: true,
        wave: named.wave,
        report: named.report,
    }
}

/// The frames on a bus, read from a wave.
fn decode_bus<B: Bench>(alloc: Global, wave: &str, bus: NamedBus<'_>, bench: &mut B) -> WorkEnd
    requires { IsNamedBus bus }
    ensures ends { Ends (Answers (B.outside bench.old).requests (Decode wave.now (bus_by bus.entry))) (outcome_of result) (B.outside bench.old) (B.outside bench.new) }
    ensures silent { SaidNothing (B.outside bench.old) (B.outside bench.new) }
{
    match bus {
        NamedBus::Uart(line, bit) => decode(alloc, wave, line, None, Bus::Uart { bit }, bench),
        NamedBus::Spi(clock, line, mode) => {
            decode(alloc, wave, clock, Some(line), Bus::Spi { mode }, bench)
        }
        NamedBus::I2c(clock, line) => decode(alloc, wave, clock, Some(line), Bus::I2c, bench),
    }
}

/// The work that the words ask for; Complaint is left alone.
#[tactic(auto, using(crate::proofs::AnswerLemmas::check_counts, crate::proofs::AnswerLemmas::module_counts, crate::proofs::AnswerLemmas::decode_counts, crate::proofs::AnswerLemmas::boardless))]
fn work<B: Bench, L: Ledger>(
    alloc: Global,
    words: &[String],
    bench: &mut B,
    steps: &mut Steps<L>,
) -> WorkEnd
    ensures happens { Happens (outcome_of result) (request_of (map string_bytes words.now)) (B.outside bench.old) (B.outside bench.new) }
    ensures isolated { HappensIsolated (outcome_of result) (request_of (map string_bytes words.now)) (B.outside bench.old) (B.outside bench.new) }
    ensures repeated { HappensRepeated (outcome_of result) (request_of (map string_bytes words.now)) (B.outside bench.old) (B.outside bench.new) }
    ensures counts { Counts (outcome_of result) (request_of (map string_bytes words.now)) (B.outside bench.old) steps.old steps.new }
    ensures boardless { CountsNone (request_of (map string_bytes words.now)) steps.old steps.new }
    ensures silent { SaidNothing (B.outside bench.old) (B.outside bench.new) }
{
    match read_words(alloc, words) {
        Ok(Some(Request::Bare(hex, micros))) => bare(alloc, hex, micros, bench, steps),
        Ok(Some(Request::Check(folder))) => check(alloc, folder, bench),
        Ok(Some(Request::Module(file))) => check_module(alloc, file, bench),
        Ok(Some(Request::Run(folder, micros, budget, named))) => {
            let scripted = ScriptedProject {
                folder,
                script: named.script,
            };
            let outputs = outputs_to(named);
            run(alloc, scripted, micros, budget, outputs, bench, steps)
        }
        Ok(Some(Request::Serve(folder, budget, script, wave))) => {
            let scripted = ScriptedProject { folder, script };
            serve(alloc, scripted, budget, wave, bench, steps)
        }
        Ok(Some(Request::Replay(folder, wave, micros, named))) => {
            let scripted = ScriptedProject {
                folder,
                script: named.script,
            };
            let outputs = outputs_to(named);
            replay(alloc, scripted, wave, micros, outputs, bench, steps)
        }
        Ok(Some(Request::Twin(folder, other, micros, budget))) => {
            twin(alloc, folder, other, micros, budget, bench, steps)
        }
        Ok(Some(Request::Make(seed, micros))) => make(alloc, seed, micros, bench, steps),
        Ok(Some(Request::Decode(wave, bus))) => decode_bus(alloc, wave, bus, bench),
        Ok(None) => WorkEnd::NoRequest,
        Err(_) => WorkEnd::OutOfMemory,
    }
}

/// Does all that the program does for its words, which are without its name, and answers its status:
/// 0 where all is written, 2 where the words ask for nothing known, 3 and 4 where a file is refused
/// or missing, 5 and 6 where a read or a write failed, 7 where memory ran out.
pub fn simulate<B: Bench, L: Ledger>(
    alloc: Global,
    words: &[String],
    bench: &mut B,
    steps: &mut Steps<L>,
) -> u8
    // All at once: the outcome with its cause, the ports, and the line on Complaint.
    ensures does { Does result (map string_bytes words.now) (B.outside bench.old) (B.outside bench.new) }

    // What follows from it, promise by promise.
    ensures status { IsStatus result }
    ensures words { WordsAlone result (request_of (map string_bytes words.now)) }
    ensures answered { IsAnswered result (request_of (map string_bytes words.now)) (B.outside bench.old) (B.outside bench.new) }
    ensures complete { IsComplete result (request_of (map string_bytes words.now)) (B.outside bench.old) (B.outside bench.new) }
    ensures holds { HoldsAnswer result (request_of (map string_bytes words.now)) (B.outside bench.old) (B.outside bench.new) }
    ensures stopped { IsStopped result (request_of (map string_bytes words.now)) (B.outside bench.old) (B.outside bench.new) }
    ensures true_stop { IsTrueStop result (request_of (map string_bytes words.now)) (B.outside bench.old) }
    ensures cause { HasCause result (B.outside bench.old) (B.outside bench.new) }
    ensures front { HoldsFront result (request_of (map string_bytes words.now)) (B.outside bench.old) (B.outside bench.new) }
    ensures steps { CountsWakes result (request_of (map string_bytes words.now)) (B.outside bench.old) steps.old steps.new }
    ensures boardless { CountsNone (request_of (map string_bytes words.now)) steps.old steps.new }
    ensures silent { ComplainsAlone result (request_of (map string_bytes words.now)) (B.outside bench.old) (B.outside bench.new) }
    ensures broken_off { IsBrokenOff result (request_of (map string_bytes words.now)) (B.outside bench.old) (B.outside bench.new) }

    // And of a run, whatever its chips do: players may stand for them. Of a conversation too: each drives by its own pins alone, and
    // what they are made of is seen through their drives alone.
    ensures played { HoldsPlay result (request_of (map string_bytes words.now)) (B.outside bench.old) (B.outside bench.new) }
    ensures alone { HoldsAlone result (request_of (map string_bytes words.now)) (B.outside bench.old) (B.outside bench.new) }
    ensures worlds { HoldsWorlds result (request_of (map string_bytes words.now)) (B.outside bench.old) (B.outside bench.new) }

    // What an OLED shows are the bytes that were written to it on its own pins.
    ensures shown { HoldsShown result (request_of (map string_bytes words.now)) (B.outside bench.old) (B.outside bench.new) }

    // And of a replay: the wave that a run wrote is accepted, and it writes the same wave, bytes and report, but for the lines of the chips.
    ensures repeated { HoldsRepeat result (request_of (map string_bytes words.now)) (B.outside bench.old) (B.outside bench.new) }
{
    let outcome = work(alloc, words, bench, steps);
    let _end = tell(&outcome, bench);
    status(&outcome)
}
