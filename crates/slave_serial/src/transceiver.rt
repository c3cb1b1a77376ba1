//! Both directions of a UART.
ghost use Rattle.std.specs.Prelude.{◌≡◌, ◌<◌, ◌≤◌, ◌+◌, ◌++◌};
ghost use Rattle.std.specs.Option.{option_to_list};
ghost use Rattle.slave_serial.specs.Reception.{IsBit, Receives};
ghost use Rattle.slave_serial.specs.Sending.{bit_end, is_sending, next_line, Sends};
ghost use Rattle.slave_serial.specs.Reception.{next_sample};
ghost use Rattle.slave_serial.specs.Uart.{idle_uart, uart_step, begins, with_byte, IsUart};

use crate::reception::{Reception, next_sample, received, taken_in};
use crate::sending::{Sending, begun};
use sim_base::MOST_CYCLES;
use slave_request::EngineRequest;

/// How many cycles a bit has, what comes in, and what goes out.
#[derive(Clone, Copy)]
pub struct Uart {
    pub bit: u32,
    pub reception: Option<Reception>,
    pub sending: Sending,
}

impl Uart {
    /// An idle one, whose bits have this many cycles: 2 to 16,000,000.
    pub fn new(bit: u32) -> Uart
        requires bit { IsBit bit }
        ensures value { result ≡ idle_uart bit }
        ensures sound { IsUart result }
    {
        Uart {
            bit,
            reception: None,
            sending: Sending::Idle,
        }
    }

    /// One cycle, from what RX read in the cycle before and reads in this one: what it asks for, in this order.
    pub fn step(
        &mut self,
        cycle: u64,
        before: bool,
        now: bool,
    ) -> (Option<EngineRequest>, Option<EngineRequest>)
        requires cycle { cycle < MOST_CYCLES }
        requires sound { IsUart self.old }
        ensures asks { option_to_list result.0 ++ option_to_list result.1 ≡ (uart_step self.old cycle before now).1 }
        ensures state { self.new ≡ (uart_step self.old cycle before now).0 }
        ensures sound { IsUart self.new }
        ensures sends { Sends self.old.sending cycle → Sends self.new.sending (cycle + 1) }
        ensures receives { Receives self.old.reception cycle → Receives self.new.reception (cycle + 1) }
    {
        let first = taken_in(self.reception, cycle, now);
        let second = self.sending.put_out(cycle);
        self.reception = received(self.reception, self.bit, cycle, before, now);
        self.sending = self.sending.sent(self.bit, cycle);
        (first, second)
    }

    /// Begins to send `count` bytes in the cycle behind this one.
    pub fn begin(&mut self, cycle: u64, count: u32)
        requires cycle { cycle ≤ MOST_CYCLES }
        ensures state { self.new ≡ begins self.old cycle count }
        ensures sound { IsUart self.old → IsUart self.new }
        ensures sends { Sends self.new.sending (cycle + 1) }
    {
        self.sending = begun(count, cycle);
    }

    /// With the byte that was fetched.
    pub fn give(&mut self, byte: u8)
        ensures state { self.new ≡ with_byte self.old byte }
        ensures sound { IsUart self.old → IsUart self.new }
    {
        self.sending = self.sending.given(byte);
    }

    /// Whether bytes are on their way.
    pub fn is_sending(&self) -> bool
        ensures { result ≡ is_sending self.now.sending }
    {
        self.sending.is_sending()
    }

    /// What TX is in the cycle of the next turn, where a frame that is to begin begins in that one.
    pub fn next_line(&self) -> bool
        ensures { result ≡ next_line self.now.sending }
    {
        self.sending.next_line()
    }

    /// The last cycle of the bit that is sent.
    pub fn bit_end(&self) -> Option<u64>
        ensures { result ≡ bit_end self.now.sending }
    {
        self.sending.bit_end()
    }

    /// The cycle of the next sample.
    pub fn next_sample(&self) -> Option<u64>
        ensures { result ≡ next_sample self.now.reception }
    {
        next_sample(self.reception)
    }
}
