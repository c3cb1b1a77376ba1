//! Reading files.
ghost use Rattle.std.specs.Prelude.{◌≡◌, ◌≤◌, ℕ, List, Result, Ok, IfOk, length};
ghost use Rattle.sim_base.specs.declared.fault.Refusal.{Refusal};
ghost use Rattle.sim_base.specs.Outside.{Outside, SamePorts};
ghost use Rattle.sim_base.specs.Reads.{Reads};
ghost use Rattle.sim_outcome_model.specs.Work.{Got, IsFile, IsFileWithin};
ghost use Rattle.sim_io.specs.Documents.{IsRead};
ghost use Rattle.sim_io.specs.Outcomes.{outcome_of, stop_of};

use crate::outcome::{Stop, WorkEnd, stopped};
use input_texts::read_hex;
use sim_base::{Bench, Fault, Flash, Place, ReadEnd, Refusal};
use sim_refusals::numbers::FILE_TOO_LONG;
use std::alloc::Global;

/// The bytes of a file of at most `limit` bytes.
pub fn read_within<B: Bench>(
    alloc: Global,
    limit: u32,
    name: &str,
    bench: &mut B,
) -> Result<Vec<u8>, Stop>
    ensures got { Got (λ v. v.items) (stop_of name.now) result (IsFileWithin limit name.now (λ bytes. Ok bytes)) (B.outside bench.old) (B.outside bench.new) }
    ensures ports { SamePorts (B.outside bench.old) (B.outside bench.new) }
    ensures short { IfOk result (λ v. length v.items ≤ limit) }
{
    let mut bytes = Vec::new(alloc);
    match bench.read_file(name, limit, &mut bytes) {
        ReadEnd::Ok => Ok(bytes),
        ReadEnd::Missing => Err(Stop::Missing),
        ReadEnd::TooLong => Err(Stop::Refused(Refusal {
            number: FILE_TOO_LONG,
            place: Place::Whole,
        })),
        ReadEnd::Failed => Err(Stop::ReadFailed),
        ReadEnd::OutOfMemory => Err(Stop::OutOfMemory),
    }
}

/// The bytes of a file of at most 1,048,576 bytes.
pub fn read_bytes<B: Bench>(alloc: Global, name: &str, bench: &mut B) -> Result<Vec<u8>, Stop>
    ensures got { Got (λ v. v.items) (stop_of name.now) result (IsFile name.now (λ bytes. Ok bytes)) (B.outside bench.old) (B.outside bench.new) }
    ensures ports { SamePorts (B.outside bench.old) (B.outside bench.new) }
    ensures short { IfOk result (λ v. length v.items ≤ 1048576) }
{
    read_within(alloc, 1_048_576, name, bench)
}

/// A kind of file: what its bytes, at most 1,048,576, are read as.
pub trait Document {
    type Text;

    ghost reading: { List ℕ → Result Self.Text Refusal };

    fn read(alloc: Global, bytes: &[u8]) -> Result<Self::Text, Fault>
        requires { length bytes.now ≤ 1048576 }
        ensures { Reads (λ d. d) result (reading bytes.now) };
}

fn read_as<D: Document, B: Bench>(alloc: Global, name: &str, bench: &mut B) -> Result<D::Text, Stop>
    ensures got { Got (λ d. d) (stop_of name.now) result (IsFile name.now D.reading) (B.outside bench.old) (B.outside bench.new) }
    ensures ports { SamePorts (B.outside bench.old) (B.outside bench.new) }
    ensures read { IfOk result (IsRead D.reading) }
{
    let bytes = read_bytes(alloc, name, bench)?;
    match D::read(alloc, &bytes) {
        Ok(document) => Ok(document),
        Err(Fault::Refused(refusal)) => Err(Stop::Refused(refusal)),
        Err(Fault::OutOfMemory) => Err(Stop::OutOfMemory),
    }
}

/// What a file of this kind is read as, or the end of the work by it.
pub fn read_document<D: Document, B: Bench>(
    alloc: Global,
    name: &str,
    bench: &mut B,
) -> Result<D::Text, WorkEnd>
    ensures got { Got (λ d. d) outcome_of result (IsFile name.now D.reading) (B.outside bench.old) (B.outside bench.new) }
    ensures ports { SamePorts (B.outside bench.old) (B.outside bench.new) }
    ensures read { IfOk result (IsRead D.reading) }
{
    match read_as::<D, B>(alloc, name, bench) {
        Ok(document) => Ok(document),
        Err(stop) => Err(stopped(alloc, name, stop)),
    }
}

/// An Intel HEX file, read as the flash image.
pub struct HexFile;

impl Document for HexFile {
    ghost use Rattle.text_model.specs.Hex.{hex_image};

    type Text = Flash;

    ghost reading = { hex_image };

    fn read(alloc: Global, bytes: &[u8]) -> Result<Flash, Fault> {
        read_hex(alloc, bytes)
    }
}
