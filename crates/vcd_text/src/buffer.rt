//! A text of bounded length that is built without memory being taken.
ghost use Rattle.std.specs.Prelude.{◌≡◌, ℕ, List, [], ◌++◌, ◌+◌, ◌<◌, ◌≤◌, take, length, IfOk, vec_len};
ghost use Rattle.std.specs.Fmt.{decimal};

use itoa::write_digits;
use sim_base::OutOfMemory;
use std::alloc::{AllocError, Global};
use std::marker::Model;

#[derive(Drop)]
pub struct Buffer {
    /// The text, and room behind it.
    bytes: Vec<u8>,
    len: usize,
}

impl Model for Buffer {
    ghost use Rattle.std.specs.Prelude.{◌≤◌, take, vec_len};
    ghost use Rattle.vcd_text.specs.Buffers.{BufferState};

    ghost Value = { BufferState };

    ghost view = { λ a. record { text = take a.len a.bytes.items; room = vec_len a.bytes } };

    ghost invariant = { λ a. a.len ≤ vec_len a.bytes };
}

fn blank(alloc: Global, room: usize) -> Result<Vec<u8>, AllocError>
    ensures { IfOk result (λ v. vec_len v ≡ room) }
{
    vec![in alloc; b' '; room]
}

/// How many digits a number below 10,000 has.
#[inline(always)]
#[tactic(auto, using(itoa::proofs::Decimal::length_one, itoa::proofs::Decimal::length_two, itoa::proofs::Decimal::length_pair))]
fn count_few(n: u64) -> usize
    requires { n < 10000 }
    ensures exact { result ≡ length (decimal n) }
    ensures few { result ≤ 4 }
{
    if n < 10 {
        1
    } else if n < 100 {
        2
    } else if n < 1_000 {
        3
    } else {
        4
    }
}

/// How many digits a number has.
#[inline(always)]
#[tactic(auto, using(itoa::proofs::Decimal::length_four))]
fn count_digits(n: u64) -> usize
    requires { n < 10000000000000000 }
    ensures exact { result ≡ length (decimal n) }
    ensures few { result ≤ 16 }
{
    if n < 10_000 {
        count_few(n)
    } else if n < 100_000_000 {
        4 + count_few(n / 10_000)
    } else if n < 1_000_000_000_000 {
        8 + count_few(n / 10_000 / 10_000)
    } else {
        12 + count_few(n / 10_000 / 10_000 / 10_000)
    }
}

/// Fills bytes with the digits of a number.
#[inline(always)]
fn fill(n: u64, bytes: &mut [u8])
    requires { length bytes.old ≡ length (decimal n) }
    ensures { bytes.new ≡ decimal n }
{
    let end = bytes.len();
    write_digits(n, bytes, end);
}

impl Buffer {
    /// An empty buffer with so much room.
    pub fn with_room(alloc: Global, room: usize) -> Result<Buffer, OutOfMemory>
        ensures { IfOk result (λ b. b ≡ record { text = []; room = room }) }
    {
        Ok(Buffer {
            bytes: blank(alloc, room)?,
            len: 0,
        })
    }

    pub fn clear(&mut self)
        ensures { self.new ≡ record self.old { text = [] } }
    {
        self.len = 0;
    }

    /// Takes off what stands behind so many bytes.
    pub fn truncate(&mut self, len: usize)
        requires { len ≤ length self.old.text }
        ensures { self.new ≡ record self.old { text = take len self.old.text } }
    {
        self.len = len;
    }

    #[inline(always)]
    pub fn push(&mut self, text: &[u8])
        requires { length self.old.text + length text.now ≤ self.old.room }
        ensures { self.new ≡ record self.old { text = self.old.text ++ text.now } }
    {
        let end = self.len + text.len();
        self.bytes[self.len..end].copy_from_slice(text);
        self.len = end;
    }

    /// Adds a number in decimal.
    #[inline(always)]
    pub(crate) fn push_number(&mut self, n: u64)
        requires small { n < 10000000000000000 }
        requires room { length self.old.text + 16 ≤ self.old.room }
        ensures text { self.new ≡ record self.old { text = self.old.text ++ decimal n } }
        ensures short { length self.new.text ≤ length self.old.text + 16 }
    {
        let end = self.len + count_digits(n);
        fill(n, &mut self.bytes[self.len..end]);
        self.len = end;
    }

    #[inline]
    pub fn text(&self) -> &[u8]
        ensures { result.now ≡ self.now.text }
    {
        &self.bytes[..self.len]
    }
}
