//! The line on Complaint.
ghost use Rattle.std.specs.Prelude.{◌≡◌, ℕ, List, [], ◌∷◌, decimal};
ghost use Rattle.std.specs.List.{concat};
ghost use Rattle.sim_base.specs.Outside.{SameOthers};
ghost use Rattle.sim_outcome_model.specs.Stop.{Refused};
ghost use Rattle.sim_outcome_model.specs.Work.{Wrote, WroteOn};
ghost use Rattle.sim_outcome_model.specs.Outcome.{Accepted, Stopped, line_of, place_parts};
ghost use Rattle.sim_io.specs.Outcomes.{outcome_of};

use crate::outcome::WorkEnd;
use crate::writing::{write_next, write_parts};
use itoa::Buffer;
use sim_base::{Bench, Place, Port, Refusal, WriteEnd};
use sim_refusals::refusal_name;

fn tell_text<B: Bench>(end: WriteEnd, text: &str, bench: &mut B) -> WriteEnd
    ensures next { WroteOn end result Port.Complaint text.now (B.outside bench.old) (B.outside bench.new) }
    ensures others { SameOthers Port.Complaint (B.outside bench.old) (B.outside bench.new) }
{
    write_next(end, bench, Port::Complaint, text.as_bytes())
}

/// A word before a number, and the number.
fn tell_count<B: Bench>(end: WriteEnd, word: &str, n: u32, bench: &mut B) -> WriteEnd
    ensures next { WroteOn end result Port.Complaint (concat (word.now ∷ decimal n ∷ [])) (B.outside bench.old) (B.outside bench.new) }
    ensures others { SameOthers Port.Complaint (B.outside bench.old) (B.outside bench.new) }
{
    let mut buffer = Buffer::new();
    let end = tell_text(end, word, bench);
    tell_text(end, buffer.format(n), bench)
}

fn tell_place<B: Bench>(end: WriteEnd, place: Place, bench: &mut B) -> WriteEnd
    ensures next { WroteOn end result Port.Complaint (concat (place_parts place)) (B.outside bench.old) (B.outside bench.new) }
    ensures others { SameOthers Port.Complaint (B.outside bench.old) (B.outside bench.new) }
{
    match place {
        Place::Whole => tell_text(end, "", bench),
        Place::Line(n) => tell_count(end, " line ", n, bench),
        Place::Byte(n) => tell_count(end, " byte ", n, bench),
        Place::Part(n) => tell_count(end, " part ", n, bench),
        Place::Connection(n) => tell_count(end, " connection ", n, bench),
        Place::Chip(n) => tell_count(end, " chip ", n, bench),
        Place::Import(n) => tell_count(end, " import ", n, bench),
        Place::Entry(section, n) => {
            let end = tell_count(end, " section ", u32::from(section), bench);
            tell_count(end, " entry ", n, bench)
        }
        Place::Code(function, n) => {
            let end = tell_count(end, " function ", function, bench);
            tell_count(end, " instruction ", n, bench)
        }
    }
}

fn tell_refusal<B: Bench>(name: &str, refusal: Refusal, bench: &mut B) -> WriteEnd
    ensures wrote { Wrote result Port.Complaint (line_of (Stopped (Refused name.now refusal))) (B.outside bench.old) (B.outside bench.new) }
    ensures others { SameOthers Port.Complaint (B.outside bench.old) (B.outside bench.new) }
{
    let end = tell_text(WriteEnd::Ok, name, bench);
    let end = tell_count(end, ": refused ", u32::from(refusal.number), bench);
    let end = tell_text(end, " ", bench);
    let end = tell_text(end, refusal_name(refusal.number), bench);
    let end = tell_place(end, refusal.place, bench);
    tell_text(end, "\n", bench)
}

/// Writes the line of an outcome, and nothing where all was accepted.
pub fn tell<B: Bench>(outcome: &WorkEnd, bench: &mut B) -> WriteEnd
    ensures wrote { Wrote result Port.Complaint (line_of (outcome_of outcome.now)) (B.outside bench.old) (B.outside bench.new) }
    ensures others { SameOthers Port.Complaint (B.outside bench.old) (B.outside bench.new) }
    ensures quiet { outcome_of outcome.now ≡ Accepted → B.outside bench.new ≡ B.outside bench.old }
{
    match outcome {
        WorkEnd::Accepted => WriteEnd::Ok,
        WorkEnd::NoRequest => write_parts(
            bench,
            Port::Complaint,
            &[b"words not understood", b"\n"],
        ),
        WorkEnd::Missing(name) => write_parts(
            bench,
            Port::Complaint,
            &[name.as_str().as_bytes(), b": missing", b"\n"],
        ),
        WorkEnd::Refused(name, refusal) => tell_refusal(name.as_str(), *refusal, bench),
        WorkEnd::ReadFailed(name) => write_parts(
            bench,
            Port::Complaint,
            &[name.as_str().as_bytes(), b": read failed", b"\n"],
        ),
        WorkEnd::RequestFailed => write_parts(
            bench,
            Port::Complaint,
            &[b"standard input: read failed", b"\n"],
        ),
        WorkEnd::WriteFailed => write_parts(bench, Port::Complaint, &[b"write failed", b"\n"]),
        WorkEnd::OutOfMemory => write_parts(bench, Port::Complaint, &[b"out of memory", b"\n"]),
    }
}
