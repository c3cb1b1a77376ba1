//! The bytes that go out, each in a frame: a start bit, 8 data bits and a stop bit.
ghost use Rattle.std.specs.Prelude.{◌≡◌, ◌+◌, ◌<◌, ◌≤◌};
ghost use Rattle.slave_serial.specs.Reception.{IsBit};
ghost use Rattle.slave_serial.specs.Sending.{begun, bit_over, sent, put_out, given, frame_bit, next_line, bit_end, is_sending, IsSending, Sends};

use crate::buffer::Buffer;
use avr_unit::has_bit;
use sim_base::MOST_CYCLES;
use slave_request::EngineRequest;

/// A frame on the way: its byte, which of its bits is sent, and the last cycle of that bit.
#[derive(Clone, Copy)]
pub struct Frame {
    pub byte: u8,
    pub place: u8,
    pub end: u64,
}

impl Frame {
    // The bit that is sent.
    fn bit(self) -> bool
        ensures { result ≡ frame_bit self }
    {
        if self.place == 0 {
            false
        } else if self.place < 9 {
            has_bit(self.byte, self.place - 1)
        } else {
            true
        }
    }
}

/// What goes on at TX: nothing; a call of no bytes that is answered in a cycle; a frame whose first cycle is to come, in
/// which its byte is fetched; a frame on the way.
#[derive(Clone, Copy)]
pub enum Sending {
    Idle,
    Empty(u64),
    Start(Buffer, u64),
    Bits(Buffer, Frame),
}

/// `count` bytes, from the cycle behind this one on.
pub(crate) fn begun(count: u32, cycle: u64) -> Sending
    requires cycle { cycle ≤ MOST_CYCLES }
    ensures value { result ≡ begun count cycle }
    ensures stands { Sends result (cycle + 1) }
{
    if count == 0 {
        Sending::Empty(cycle + 1)
    } else {
        Sending::Start(Buffer { count, index: 0 }, cycle + 1)
    }
}

// The last cycle of a bit.
fn bit_over(buffer: Buffer, frame: Frame, bit: u32, cycle: u64) -> Sending
    requires bit { IsBit bit }
    requires cycle { cycle < MOST_CYCLES }
    requires index { buffer.index < buffer.count }
    ensures value { result ≡ bit_over buffer frame bit cycle }
    ensures stands { Sends result (cycle + 1) }
{
    if frame.place < 9 {
        return Sending::Bits(
            buffer,
            Frame {
                place: frame.place + 1,
                end: cycle + u64::from(bit),
                ..frame
            },
        );
    }
    let index = buffer.index + 1;
    if index == buffer.count {
        Sending::Idle
    } else {
        Sending::Start(Buffer { index, ..buffer }, cycle + 1)
    }
}

impl Sending {
    /// One cycle.
    pub(crate) fn sent(self, bit: u32, cycle: u64) -> Sending
        requires bit { IsBit bit }
        requires cycle { cycle < MOST_CYCLES }
        requires sound { IsSending self }
        ensures value { result ≡ sent self bit cycle }
        ensures sound { IsSending result }
        ensures stands { Sends self cycle → Sends result (cycle + 1) }
    {
        match self {
            Sending::Empty(due) if due == cycle => Sending::Idle,
            Sending::Start(buffer, first) if first == cycle => Sending::Bits(
                buffer,
                Frame {
                    byte: 0,
                    place: 0,
                    end: cycle + u64::from(bit) - 1,
                },
            ),
            Sending::Bits(buffer, frame) if frame.end == cycle => {
                bit_over(buffer, frame, bit, cycle)
            }
            _ => self,
        }
    }

    /// What is asked for in a cycle: the byte of a frame in its first one, the end of all in the last one.
    pub(crate) fn put_out(self, cycle: u64) -> Option<EngineRequest>
        requires { IsSending self }
        ensures { result ≡ put_out self cycle }
    {
        match self {
            Sending::Empty(due) if due == cycle => Some(EngineRequest::Sent),
            Sending::Start(buffer, first) if first == cycle => {
                Some(EngineRequest::Fetch(buffer.index))
            }
            Sending::Bits(buffer, frame)
                if frame.end == cycle && (frame.place == 9 && buffer.index + 1 == buffer.count) => {
                Some(EngineRequest::Sent)
            }
            _ => None,
        }
    }

    /// With the byte that was fetched.
    pub(crate) fn given(self, byte: u8) -> Sending
        ensures value { result ≡ given self byte }
        ensures sound { IsSending self → IsSending result }
    {
        match self {
            Sending::Bits(buffer, frame) => Sending::Bits(buffer, Frame { byte, ..frame }),
            _ => self,
        }
    }

    /// What TX is in the cycle of the next turn, where a frame that is to begin begins in that one.
    pub(crate) fn next_line(self) -> bool
        ensures { result ≡ next_line self }
    {
        match self {
            Sending::Idle | Sending::Empty(_) => true,
            Sending::Start(..) => false,
            Sending::Bits(_, frame) => frame.bit(),
        }
    }

    /// The cycle of its next event.
    pub(crate) fn bit_end(self) -> Option<u64>
        ensures { result ≡ bit_end self }
    {
        match self {
            Sending::Idle => None,
            Sending::Empty(due) => Some(due),
            Sending::Start(_, first) => Some(first),
            Sending::Bits(_, frame) => Some(frame.end),
        }
    }

    pub(crate) fn is_sending(self) -> bool
        ensures { result ≡ is_sending self }
    {
        match self {
            Sending::Idle => false,
            Sending::Empty(_) | Sending::Start(..) | Sending::Bits(..) => true,
        }
    }
}
