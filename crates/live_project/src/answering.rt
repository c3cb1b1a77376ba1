//! Answers to requests.
ghost use Rattle.std.specs.Prelude.{◌≡◌, ◌≢◌, ◌+◌, ◌<◌, ◌≤◌, ◌&&◌, ◌++◌, ℕ, List, Bool, Ok, length, true};
ghost use Rattle.vcd_text.specs.Ports.{texts, BreaksOff, Writes};
ghost use Rattle.any_part.specs.AnyPart.{AnyState};
ghost use Rattle.live_request.specs.Request as asks;
ghost use Rattle.live_request.specs.Views.{request_of};
ghost use Rattle.live_model.specs.Board.{Setup, wave_to, whole_wave, wakes_to};
ghost use Rattle.live_model.specs.Standing.{Standing};
ghost use Rattle.live_model.specs.Talk as talks;
ghost use Rattle.live_talk.specs.Answers.{Answers, standing_of};
ghost use Rattle.live_project.specs.Goes.{setup_by, MayAnswer, IsAt, Replies, next_by};

use crate::live::{Live, Next};
use any_part::AnyPart;
use live_leg::close;
use live_request::{Request, read_request};
use live_talk::{act, level, page, refuse, run, tell, wave};
use live_text::{OUT_OF_MEMORY, ok_line};
use part_law::Part;
use sim_base::{Bench, Steps, WriteEnd};
use sim_refusals::numbers::{REQUEST_LONG, REQUEST_UNKNOWN};
use std::snapshot::Snapshot;
use std::sync::ledger::Ledger;

fn is_quit(request: &Request<'_>) -> bool
    ensures { result ≡ talks.is_quit (Ok (request_of request.now)) }
{
    matches!(request, Request::Quit)
}

fn next_of(end: WriteEnd, quits: bool) -> Next
    ensures { result ≡ next_by end quits }
{
    match end {
        WriteEnd::Ok if quits => Next::Quit,
        WriteEnd::Ok => Next::Request,
        WriteEnd::Failed => Next::WriteFailed,
    }
}

impl Live {
    /// Says the report of its cycle.
    fn report<B: Bench>(&mut self, bench: &mut B, start: &Snapshot<B>) -> WriteEnd
        requires may { MayAnswer ⟦<AnyPart as Part>⟧ self.old (B.outside start.now.value) (B.outside bench.old) }
        ensures answers { (lacks : Bool) × ((steps : ℕ) → Answers ⟦<AnyPart as Part>⟧
            (talks.lacking lacks (talks.answer (setup_by self.old) (standing_of self.old.talk.live) asks.Report))
            self.old.talk result self.new.talk (B.outside start.now.value) (B.outside bench.old) (B.outside bench.new) steps steps) }
        ensures parts { self.new.parts ≡ self.old.parts }
        ensures wave { self.new.wave ≡ self.old.wave }
        ensures wiring { self.new.probe.wiring ≡ self.old.probe.wiring }
        ensures requests { (B.outside bench.new).requests ≡ (B.outside bench.old).requests }
    {
        let cycle = self.talk.live.cycle();
        let parts = self.talk.live.parts().as_slice();
        match self.page.make(cycle, self.parts.as_slice(), parts) {
            Ok(()) => page(&mut self.talk, self.page.text(), bench, start),
            Err(_) => refuse(&mut self.talk, OUT_OF_MEMORY, bench, start),
        }
    }

    /// Does what is asked for, and says what comes of it.
    fn reply<B: Bench, L: Ledger>(
        &mut self,
        request: Request<'_>,
        bench: &mut B,
        start: &Snapshot<B>,
        steps: &mut Steps<L>,
    ) -> WriteEnd
        requires may { MayAnswer ⟦<AnyPart as Part>⟧ self.old (B.outside start.now.value) (B.outside bench.old) }
        ensures answers { (lacks : Bool) × Answers ⟦<AnyPart as Part>⟧ (talks.lacking (lacks && talks.may_lack (Ok (request_of request.entry)))
            (talks.answer (setup_by self.old) (standing_of self.old.talk.live) (request_of request.entry)))
            self.old.talk result self.new.talk (B.outside start.now.value) (B.outside bench.old) (B.outside bench.new) steps.old steps.new }
        ensures parts { self.new.parts ≡ self.old.parts }
        ensures wave { self.new.wave ≡ self.old.wave }
        ensures wiring { self.new.probe.wiring ≡ self.old.probe.wiring }
        ensures requests { (B.outside bench.new).requests ≡ (B.outside bench.old).requests }
    {
        match request {
            Request::Run(until, conditions) => run(
                &mut self.talk,
                &mut self.probe,
                until,
                conditions.as_slice(),
                bench,
                start,
                steps,
            ),
            Request::Act(line) => act(&mut self.talk, self.parts.as_slice(), line, bench, start),
            Request::Level(name) => level(&mut self.talk, &mut self.probe, name, bench, start),
            Request::Report => self.report(bench, start),
            Request::Wave => wave(&mut self.talk, self.wave, bench, start),
            Request::Quit => page(&mut self.talk, &[], bench, start),
            _ => refuse(&mut self.talk, REQUEST_UNKNOWN, bench, start),
        }
    }

    /// Says what comes before any request.
    pub fn greet<B: Bench>(&mut self, bench: &mut B, start: &Snapshot<B>) -> WriteEnd
        requires may { MayAnswer ⟦<AnyPart as Part>⟧ self.old (B.outside start.now.value) (B.outside bench.old) }
        ensures ok { result ≡ WriteEnd.Ok → (b : Setup AnyState) (s : Standing) (said : List ℕ)
            → IsAt ⟦<AnyPart as Part>⟧ b self.old s said (B.outside start.now.value) (B.outside bench.old)
            → IsAt ⟦<AnyPart as Part>⟧ b self.new s (said ++ talks.greeting) (B.outside start.now.value) (B.outside bench.new) }
        ensures failed { result ≡ WriteEnd.Failed → (b : Setup AnyState) (s : Standing) (said : List ℕ)
            → IsAt ⟦<AnyPart as Part>⟧ b self.old s said (B.outside start.now.value) (B.outside bench.old)
            → BreaksOff (texts b.wave true (wave_to b s.inputs s.cycle) (said ++ talks.greeting)) (B.outside start.now.value) (B.outside bench.new) }
        ensures requests { (B.outside bench.new).requests ≡ (B.outside bench.old).requests }
    {
        let line = ok_line(0, 0, b"mudflatjar 1");
        tell(&mut self.talk, line.as_slice(), bench, start)
    }

    /// Answers a line of a request, of at most 1,024 bytes.
    pub fn answer<B: Bench, L: Ledger>(
        &mut self,
        line: &[u8],
        bench: &mut B,
        start: &Snapshot<B>,
        steps: &mut Steps<L>,
    ) -> Next
        requires long { length line.now ≤ 1024 }
        requires may { MayAnswer ⟦<AnyPart as Part>⟧ self.old (B.outside start.now.value) (B.outside bench.old) }
        ensures replies { (b : Setup AnyState) (s : Standing) (said : List ℕ)
            → IsAt ⟦<AnyPart as Part>⟧ b self.old s said (B.outside start.now.value) (B.outside bench.old)
            → (lacks : Bool) × Replies ⟦<AnyPart as Part>⟧ b lacks s line.now said result self.new (B.outside start.now.value) (B.outside bench.new)
            × (result ≢ Next.WriteFailed → steps.new + wakes_to b s.inputs s.cycle
            ≡ steps.old + wakes_to b (talks.standing_after s (talks.reply b s lacks line.now)).inputs (talks.standing_after s (talks.reply b s lacks line.now)).cycle) }
        ensures requests { (B.outside bench.new).requests ≡ (B.outside bench.old).requests }
    {
        match read_request(line) {
            Ok(request) => {
                let quits = is_quit(&request);
                next_of(self.reply(request, bench, start, steps), quits)
            }
            Err(number) => next_of(refuse(&mut self.talk, number, bench, start), false),
        }
    }

    /// Answers a line of more than 1,024 bytes.
    pub fn answer_long<B: Bench>(&mut self, bench: &mut B, start: &Snapshot<B>) -> Next
        requires may { MayAnswer ⟦<AnyPart as Part>⟧ self.old (B.outside start.now.value) (B.outside bench.old) }
        ensures replies { (line : List ℕ) → 1024 < length line → (b : Setup AnyState) (s : Standing) (said : List ℕ)
            → IsAt ⟦<AnyPart as Part>⟧ b self.old s said (B.outside start.now.value) (B.outside bench.old)
            → (lacks : Bool) × Replies ⟦<AnyPart as Part>⟧ b lacks s line said result self.new (B.outside start.now.value) (B.outside bench.new) }
        ensures requests { (B.outside bench.new).requests ≡ (B.outside bench.old).requests }
    {
        next_of(refuse(&mut self.talk, REQUEST_LONG, bench, start), false)
    }

    /// Ends the wave, if one is written.
    pub fn end<B: Bench>(&mut self, bench: &mut B, start: &Snapshot<B>) -> WriteEnd
        requires may { MayAnswer ⟦<AnyPart as Part>⟧ self.old (B.outside start.now.value) (B.outside bench.old) }
        ensures wrote { (b : Setup AnyState) (s : Standing) (said : List ℕ)
            → IsAt ⟦<AnyPart as Part>⟧ b self.old s said (B.outside start.now.value) (B.outside bench.old)
            → Writes result (texts b.wave true (whole_wave b s.inputs s.cycle) said) (B.outside start.now.value) (B.outside bench.new) }
        ensures requests { (B.outside bench.new).requests ≡ (B.outside bench.old).requests }
    {
        close(&mut self.talk, bench, start)
    }
}
