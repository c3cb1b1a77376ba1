//! Whoever a conversation is held with.
ghost use Rattle.std.specs.Prelude.{◌≡◌, ◌<◌, ◌≤◌, ℕ, List, ◌++◌, length, Bool, true};
ghost use Rattle.sim_base.specs.Outside.{Outside, SamePorts, IsFront};
ghost use Rattle.vcd_text.specs.Ports.{texts, BreaksOff, Leaves, Writes};
ghost use Rattle.any_part.specs.AnyPart.{AnyState};
ghost use Rattle.live_model.specs.Board.{Setup, wave_to};
ghost use Rattle.live_model.specs.Standing.{Standing};
ghost use Rattle.live_model.specs.Talk.{greeting};
ghost use Rattle.cli_serve.specs.Conversed.{texts_at};
ghost use Rattle.cli_serve.specs.Replies.{Replies, CountsReply};

use any_part::AnyPart;
use live_project::{Live, Next};
use part_law::Part;
use sim_base::{Bench, Steps, WriteEnd};
use std::snapshot::Snapshot;
use std::sync::ledger::Ledger;

/// It answers lines of requests, and the environment gets the answers. `start` is the environment as it was when the conversation
/// began; clauses alone read it.
pub(crate) trait Talker {
    /// It may be asked.
    ghost MayAnswer: { Self → Outside → Outside → Type 0 };
    /// It has this board, stands so, and has said this since it began.
    ghost IsAt: { Setup AnyState → Self → Standing → List ℕ → Outside → Outside → Type 0 };

    /// Says what comes before any request.
    fn greet<B: Bench>(&mut self, bench: &mut B, start: &Snapshot<B>) -> WriteEnd
        requires may { MayAnswer self.old (B.outside start.now.value) (B.outside bench.old) }
        ensures ok { result ≡ WriteEnd.Ok → (b : Setup AnyState) (s : Standing) (said : List ℕ)
            → IsAt b self.old s said (B.outside start.now.value) (B.outside bench.old)
            → IsAt b self.new s (said ++ greeting) (B.outside start.now.value) (B.outside bench.new) }
        ensures failed { result ≡ WriteEnd.Failed → (b : Setup AnyState) (s : Standing) (said : List ℕ)
            → IsAt b self.old s said (B.outside start.now.value) (B.outside bench.old)
            → BreaksOff (texts b.wave true (wave_to b s.inputs s.cycle) (said ++ greeting)) (B.outside start.now.value) (B.outside bench.new) }
        ensures requests { (B.outside bench.new).requests ≡ (B.outside bench.old).requests };

    /// Answers a line of at most 1,024 bytes.
    fn answer<B: Bench, L: Ledger>(
        &mut self,
        line: &[u8],
        bench: &mut B,
        start: &Snapshot<B>,
        steps: &mut Steps<L>,
    ) -> Next
        requires long { length line.now ≤ 1024 }
        requires may { MayAnswer self.old (B.outside start.now.value) (B.outside bench.old) }
        ensures replies { (b : Setup AnyState) (s : Standing) (said : List ℕ)
            → IsAt b self.old s said (B.outside start.now.value) (B.outside bench.old)
            → (lacks : Bool) × Replies IsAt b lacks s line.now said result self.new (B.outside start.now.value) (B.outside bench.new)
            × CountsReply IsAt b lacks s line.now said result steps.old steps.new }
        ensures requests { (B.outside bench.new).requests ≡ (B.outside bench.old).requests };

    /// Answers a line that is longer.
    fn answer_long<B: Bench>(&mut self, bench: &mut B, start: &Snapshot<B>) -> Next
        requires may { MayAnswer self.old (B.outside start.now.value) (B.outside bench.old) }
        ensures replies { (line : List ℕ) → 1024 < length line → (b : Setup AnyState) (s : Standing) (said : List ℕ)
            → IsAt b self.old s said (B.outside start.now.value) (B.outside bench.old)
            → (lacks : Bool) × Replies IsAt b lacks s line said result self.new (B.outside start.now.value) (B.outside bench.new) }
        ensures requests { (B.outside bench.new).requests ≡ (B.outside bench.old).requests };

    /// Ends the wave, if one is written.
    fn end<B: Bench>(&mut self, bench: &mut B, start: &Snapshot<B>) -> WriteEnd
        requires may { MayAnswer self.old (B.outside start.now.value) (B.outside bench.old) }
        ensures wrote { (b : Setup AnyState) (s : Standing) (said : List ℕ)
            → IsAt b self.old s said (B.outside start.now.value) (B.outside bench.old)
            → Writes result (texts_at b s said) (B.outside start.now.value) (B.outside bench.new) };

    ghost at_may: { (b : Setup AnyState) (live : Self) (s : Standing) (said : List ℕ) (a m : Outside) → IsAt b live s said a m → MayAnswer live a m };
    /// It does not hang on requests.
    ghost may_read: { (live : Self) (a m c : Outside) → MayAnswer live a m → SamePorts (record m { requests = c.requests }) c → c.read_faults ≡ m.read_faults → MayAnswer live a c };

    ghost at_read: { (b : Setup AnyState) (live : Self) (s : Standing) (said : List ℕ) (a m c : Outside) → IsAt b live s said a m
        → SamePorts (record m { requests = c.requests }) c → c.read_faults ≡ m.read_faults → IsAt b live s said a c };
    /// Where it may be asked, it stands somewhere.
    ghost at_any: { (live : Self) (a m : Outside) → MayAnswer live a m → (b : Setup AnyState) × (s : Standing) × (said : List ℕ) × IsAt b live s said a m };
    /// What it has said is on Serial, and a first part of the wave on Wave.
    ghost at_front: { (b : Setup AnyState) (live : Self) (s : Standing) (said : List ℕ) (a m : Outside) → IsAt b live s said a m
        → (gone : List ℕ) × IsFront gone (wave_to b s.inputs s.cycle) × Leaves (texts b.wave true gone said) a m };
}

impl Talker for Live {
    ghost use Rattle.std.specs.Prelude.{refl};
    ghost use Rattle.live_project.specs.Goes.{IsAt, MayAnswer};
    ghost use Rattle.cli_serve.specs.AtLaws.{at_any, at_front, at_may, at_read, may_read};

    ghost MayAnswer = { MayAnswer ⟦<AnyPart as Part>⟧ };

    ghost IsAt = { IsAt ⟦<AnyPart as Part>⟧ };

    fn greet<B: Bench>(&mut self, bench: &mut B, start: &Snapshot<B>) -> WriteEnd {
        Live::greet(self, bench, start)
    }

    fn answer<B: Bench, L: Ledger>(
        &mut self,
        line: &[u8],
        bench: &mut B,
        start: &Snapshot<B>,
        steps: &mut Steps<L>,
    ) -> Next {
        Live::answer(self, line, bench, start, steps)
    }

    fn answer_long<B: Bench>(&mut self, bench: &mut B, start: &Snapshot<B>) -> Next {
        Live::answer_long(self, bench, start)
    }

    fn end<B: Bench>(&mut self, bench: &mut B, start: &Snapshot<B>) -> WriteEnd {
        Live::end(self, bench, start)
    }

    ghost at_may = { at_may ⟦<AnyPart as Part>⟧ };

    ghost may_read = { may_read ⟦<AnyPart as Part>⟧ };

    ghost at_read = { at_read ⟦<AnyPart as Part>⟧ };

    ghost at_any = { at_any ⟦<AnyPart as Part>⟧ };

    ghost at_front = { at_front ⟦<AnyPart as Part>⟧ (λ live t. refl) };
}
