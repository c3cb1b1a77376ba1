//! What the ports hold, as blocks in the caller's memory.
ghost use Rattle.std.specs.Prelude.{◌≡◌, ◌+◌, ◌<◌, ◌≤◌, ◌++◌, length, take, nat_le, IsTrue, IfSome, IfNone};
ghost use Rattle.sim_base.specs.Mem.{port_of};
ghost use Rattle.web_call.specs.Blocks.{block, blocks, name_of};

use sim_base::{MemBench, Port};

/// Writes a block to `out` from `at` on, and answers where it ends, or none where it has no room.
#[tactic(auto, using(crate::proofs::BlockLemmas::length_block))]
fn put(out: &mut [u8], at: usize, bytes: &[u8]) -> Option<usize>
    requires { at ≤ length out.old }
    ensures ends { IfSome result (λ e. (e ≡ at + length (block bytes.now)) × (e ≤ length out.new)) }
    ensures holds { IfSome result (λ e. take e out.new ≡ take at out.old ++ block bytes.now) }
    ensures short { IfNone result (length out.new < at + length (block bytes.now)) }
    ensures long { length out.new ≡ length out.old }
{
    let (_, room) = out.split_at_mut(at);
    if room.len() < 8 || room.len() - 8 < bytes.len() {
        return None;
    }
    let (head, tail) = room.split_at_mut(8);
    head.copy_from_slice(&(bytes.len() as u64).to_le_bytes());
    let (place, _) = tail.split_at_mut(bytes.len());
    place.copy_from_slice(bytes);
    Some(at + 8 + bytes.len())
}

/// The name under which a port was opened, or nothing.
fn name_of(bench: &MemBench, port: Port) -> &[u8]
    ensures { result.now ≡ name_of (port_of bench.now port) }
{
    match bench.name(port) {
        Some(name) => name,
        None => &[],
    }
}

/// Writes what the ports hold to `out`, if it has room.
pub(crate) fn put_all(out: &mut [u8], bench: &MemBench) -> bool
    ensures fits { result ≡ nat_le (length (blocks bench.now)) (length out.new) }
    ensures holds { IsTrue result → take (length (blocks bench.now)) out.new ≡ blocks bench.now }
{
    let Some(at) = put(out, 0, bench.written(Port::Serial)) else {
        return false;
    };
    let Some(at) = put(out, at, name_of(bench, Port::Wave)) else {
        return false;
    };
    let Some(at) = put(out, at, bench.written(Port::Wave)) else {
        return false;
    };
    let Some(at) = put(out, at, name_of(bench, Port::Report)) else {
        return false;
    };
    let Some(at) = put(out, at, bench.written(Port::Report)) else {
        return false;
    };
    match put(out, at, bench.written(Port::Complaint)) {
        Some(_) => true,
        None => false,
    }
}
