//! What a chip has printed.
ghost use Rattle.std.specs.Prelude.{◌≡◌, ◌+◌, ◌*◌, ◌<◌, ◌^◌, [], true, IfOk};
ghost use Rattle.wasm_num.specs.Mem.{has};
ghost use Rattle.chip_output.specs.Output.{printed};
ghost use Rattle.chip_output.specs.Files.{pieces, are_inside, text};

use crate::memory::{bytes_of, piece};
use sim_base::OutOfMemory;
use std::alloc::Global;
use std::marker::Model;
use wasm_num::Memory;

/// How many bytes a console keeps.
const ROOM: usize = 65_536;

/// The first bytes that a chip printed, whose room is taken when it is made.
#[derive(Drop)]
pub struct Console {
    bytes: Vec<u8>,
}

impl Model for Console {
    ghost use Rattle.std.specs.Prelude.{List, ℕ, ◌≤◌, length};
    ghost use Rattle.std.specs.Vec.{vec_capacity};

    ghost Value = { List ℕ };

    ghost view = { λ c. c.bytes.items };

    ghost invariant = { λ c. record {
      few : length c.bytes.items ≤ 65536;
      room : 65536 ≤ vec_capacity c.bytes;
    } };
}

impl Console {
    pub fn new(alloc: Global) -> Result<Console, OutOfMemory>
        ensures { IfOk result (λ c. c ≡ []) }
    {
        Ok(Console {
            bytes: Vec::with_capacity(alloc, ROOM)?,
        })
    }

    /// All that it kept.
    pub fn bytes(&self) -> &[u8]
        ensures { result.now ≡ self.now }
    {
        self.bytes.as_slice()
    }

    /// Adds a text, of which it keeps what it has room for.
    fn print(&mut self, text: &[u8])
        ensures { self.new ≡ printed self.old text.now }
    {
        let count = text.len().min(ROOM - self.bytes.len());
        match self.bytes.extend_from_slice(&text[..count]) {
            Ok(()) => {}
            Err(_) => unreachable!(),
        }
    }

    /// Adds pieces of the memory, which are all inside it.
    #[tactic(auto, using(crate::proofs::PieceLemmas::first_piece))]
    pub fn print_pieces(&mut self, memory: &Memory, list: u64, count: u32)
        requires list { has memory.now list (8 * count) ≡ true }
        requires short { list + 8 * count < 2 ^ 33 }
        requires inside { are_inside memory.now (pieces memory.now list count) ≡ true }
        ensures { self.new ≡ printed self.old (text memory.now (pieces memory.now list count)) }
    {
        let _kept = &self.bytes;
        if count == 0 {
            return;
        }
        let (address, length) = piece(memory, list);
        self.print(bytes_of(memory, address, length));
        self.print_pieces(memory, list + 8, count - 1);
    }
}
