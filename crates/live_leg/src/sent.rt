//! The bytes that a live board sends in a leg.
ghost use Rattle.std.specs.Prelude.{◌≡◌, [], IfOk, length, nat_le};
ghost use Rattle.live_leg.specs.SentView.{SentView, with_byte, most_sent};

use sim_base::OutOfMemory;
use std::alloc::Global;
use std::marker::Model;

/// By how many bytes a leg ends.
pub const MOST_SENT: usize = 65_536;

/// How many bytes are kept: one more cycle may bring one of each part.
const ROOM: usize = 65_600;

/// The bytes since it was emptied, and how many there were from cycle 0 on.
#[derive(Drop)]
pub struct Sent {
    bytes: Vec<u8>,
    total: u64,
    first: u64,
}

impl Model for Sent {
    ghost use Rattle.std.specs.Prelude.{◌≤◌, length, vec_capacity};
    ghost use Rattle.live_leg.specs.SentView.{SentView, sent_room};

    ghost Value = { SentView };

    ghost view = { λ s. record { bytes = s.bytes.items; total = s.total; first = s.first } };

    ghost invariant = { λ s. record { room : sent_room ≤ vec_capacity s.bytes; short : length s.bytes.items ≤ sent_room } };
}

impl Sent {
    /// It has no byte yet. This takes all the memory that it needs.
    pub fn new(alloc: Global) -> Result<Sent, OutOfMemory>
        ensures { IfOk result (λ s. s ≡ record { bytes = []; total = 0; first = 0 }) }
    {
        Ok(Sent {
            bytes: Vec::with_capacity(alloc, ROOM)?,
            total: 0,
            first: 0,
        })
    }

    pub fn bytes(&self) -> &[u8]
        ensures { result.now ≡ self.now.bytes }
    {
        self.bytes.as_slice()
    }

    /// How many bytes there were from cycle 0 on.
    pub fn total(&self) -> u64
        ensures { result ≡ self.now.total }
    {
        self.total
    }

    /// Whether a leg ends by them.
    pub fn is_full(&self) -> bool
        ensures { result ≡ nat_le most_sent (length self.now.bytes) }
    {
        self.bytes.len() >= MOST_SENT
    }

    /// Forgets all, as if none had come.
    pub(crate) fn restart(&mut self)
        ensures { self.new ≡ record { bytes = []; total = 0; first = 0 } }
    {
        self.bytes.clear();
        self.total = 0;
        self.first = 0;
    }

    /// Keeps those alone that come from now on.
    pub(crate) fn empty(&mut self)
        ensures { self.new ≡ record self.old { bytes = []; first = self.old.total } }
    {
        self.bytes.clear();
        self.first = self.total;
    }

    pub(crate) fn push(&mut self, b: u8)
        ensures { self.new ≡ with_byte self.old b }
    {
        self.total = self.total.saturating_add(1);
        if self.bytes.len() < ROOM {
            match self.bytes.push(b) {
                Ok(()) => {}
                Err(_) => unreachable!(),
            }
        }
    }
}
