//! Writing texts by their parts.
ghost use Rattle.std.specs.Prelude.{◌≡◌, ℕ, List, true, map};
ghost use Rattle.std.specs.List.{concat};
ghost use Rattle.sim_base.specs.Outside.{SameOthers, is_openable};
ghost use Rattle.sim_outcome_model.specs.Stop.{printed};
ghost use Rattle.sim_outcome_model.specs.Work.{Wrote, WroteOn, RanOn};
ghost use Rattle.sim_io.specs.Outcomes.{outcome_of};

use crate::outcome::WorkEnd;
use sim_base::{Bench, Port, WriteEnd};

/// Writes the parts one after the other, up to the first that fails.
pub fn write_parts<B: Bench>(bench: &mut B, port: Port, parts: &[&[u8]]) -> WriteEnd
    requires { (B.outside bench.old).opened port ≡ true }
    ensures wrote { Wrote result port (concat (map (λ p. p.now) parts.now)) (B.outside bench.old) (B.outside bench.new) }
    ensures named { (B.outside bench.new).name port ≡ (B.outside bench.old).name port }
    ensures opened { (B.outside bench.new).opened port ≡ (B.outside bench.old).opened port }
    ensures others { SameOthers port (B.outside bench.old) (B.outside bench.new) }
{
    for part in parts {
        match bench.write(port, part) {
            WriteEnd::Ok => {}
            WriteEnd::Failed => return WriteEnd::Failed,
        }
    }
    WriteEnd::Ok
}

/// Writes more where the writing so far has not failed.
pub fn write_next<B: Bench>(end: WriteEnd, bench: &mut B, port: Port, bytes: &[u8]) -> WriteEnd
    requires { (B.outside bench.old).opened port ≡ true }
    ensures next { WroteOn end result port bytes.now (B.outside bench.old) (B.outside bench.new) }
    ensures named { (B.outside bench.new).name port ≡ (B.outside bench.old).name port }
    ensures opened { (B.outside bench.new).opened port ≡ (B.outside bench.old).opened port }
    ensures others { SameOthers port (B.outside bench.old) (B.outside bench.new) }
{
    match end {
        WriteEnd::Ok => bench.write(port, bytes),
        WriteEnd::Failed => WriteEnd::Failed,
    }
}

/// Opens a port on standard output and writes a text there.
pub fn write_text<B: Bench>(bench: &mut B, port: Port, parts: &[&[u8]]) -> WorkEnd
    requires { is_openable port ≡ true }
    ensures ran { RanOn port (outcome_of result) (printed (concat (map (λ p. p.now) parts.now))) (B.outside bench.old) (B.outside bench.new) }
    ensures others { SameOthers port (B.outside bench.old) (B.outside bench.new) }
{
    match bench.open_port(port, "-") {
        WriteEnd::Ok => match write_parts(bench, port, parts) {
            WriteEnd::Ok => WorkEnd::Accepted,
            WriteEnd::Failed => WorkEnd::WriteFailed,
        },
        WriteEnd::Failed => WorkEnd::WriteFailed,
    }
}
