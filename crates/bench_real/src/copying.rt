//! Whole texts over calls that may do a part.
ghost use Rattle.std.specs.Prelude.{◌≡◌, ◌≤◌, [], true, length, IfSome};
ghost use Rattle.std.specs.Io.KnownBytes.{Appends};

use sim_base::ReadEnd;
use std::io;
use std::io::{ErrorKind, Read, Write};

/// Reads to the end, or up to one byte more than `limit`.
pub(crate) fn read_up_to<F: Read + Drop>(file: F, limit: u32, into: &mut Vec<u8>) -> ReadEnd
    requires { into.old.items ≡ [] }
    ensures short { result ≡ ReadEnd.Ok → length into.new.items ≤ limit }
    ensures whole { result ≡ ReadEnd.Ok → IfSome (F.remaining file) (λ bytes. into.new.items ≡ bytes) }
{
    match file.take(u64::from(limit) + 1).read_to_end(into) {
        Ok(count) if count <= limit as usize => ReadEnd::Ok,
        Ok(_) => ReadEnd::TooLong,
        Err(error) if error.kind() == ErrorKind::OutOfMemory => ReadEnd::OutOfMemory,
        Err(_) => ReadEnd::Failed,
    }
}

/// Whether all bytes were written; else the system failed, and a first part may be.
pub(crate) fn write_whole<F: Write>(file: &mut F, bytes: &[u8]) -> bool
    ensures done { result ≡ true → Appends (F.contents file.old) (F.contents file.new) bytes.now }
{
    file.write_all(bytes).is_ok()
}

/// The same on standard output.
pub(crate) fn print_whole<R: Print>(rt: &R, bytes: &[u8]) -> bool {
    write_whole(&mut io::writer(rt), bytes)
}

/// The same on standard error, which takes text alone.
pub(crate) fn complain<R: Eprint>(rt: &R, bytes: &[u8]) -> bool {
    match str::from_utf8(bytes) {
        Ok(text) => rt.eprint(text).is_ok(),
        Err(_) => false,
    }
}
