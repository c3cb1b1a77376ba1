//! A transaction of the SPI slave, by the edges of SCK.
ghost use Rattle.std.specs.Prelude.{◌≡◌, ℕ, ◌+◌, ◌-◌, ◌<◌, ◌≤◌, ◌==◌, ◌&&◌, ◌++◌, not};
ghost use Rattle.std.specs.Option.{option_to_list};
ghost use Rattle.avr_unit.specs.Bits.{with_bit};
ghost use Rattle.slave_serial.specs.declared.transaction.Transaction.TheVariants as transactions;
ghost use Rattle.slave_serial.specs.Spi.{idle_in, is_away, leads, trails, reads_bit, presents, fresh, with_read, loaded, byte_over, bit_read, moved, spi_step, next_turn, opened, opens_in, is_opening, stopped, with_byte, is_open, IsTransaction, Stands};

use crate::buffer::Buffer;
use avr_unit::{has_bit, with_bit};
use sim_base::MOST_CYCLES;
use slave_request::EngineRequest;

/// What SCK and MOSI read.
#[derive(Clone, Copy, PartialEq, Eq, Debug)]
pub struct Wires {
    pub sck: bool,
    pub mosi: bool,
}

/// A byte that is exchanged: what leaves, what came in, and how many of its bits were read.
#[derive(Clone, Copy)]
pub struct Shift {
    pub out: u8,
    pub read: u8,
    pub place: u8,
}

/// Where a transaction is: there is none; its first byte is fetched in a cycle's turn; the next byte is fetched at the edge
/// that presents its first bit; a byte is exchanged; it was stopped with so many bytes, which is told in a cycle.
#[derive(Clone, Copy)]
pub enum Transaction {
    Idle,
    Opening(Buffer, u64),
    Between(Buffer),
    Shifting(Buffer, Shift),
    Stopped(u32, u64),
}

/// A slave: CPOL and CPHA of its mode, the bit that MISO has where it is driven, and the transaction.
#[derive(Clone, Copy)]
pub struct Spi {
    pub cpol: bool,
    pub cpha: bool,
    pub miso: Option<bool>,
    pub transaction: Transaction,
}

impl Shift {
    fn fresh() -> Shift
        ensures { result ≡ fresh }
    {
        Shift {
            out: 0,
            read: 0,
            place: 0,
        }
    }

    fn with_read(self, mosi: bool) -> Shift
        requires { self.place ≤ 7 }
        ensures { result ≡ with_read self mosi }
    {
        Shift {
            read: with_bit(self.read, 7 - self.place, mosi),
            place: self.place + 1,
            ..self
        }
    }
}

impl Spi {
    /// An idle one in a mode from 0 to 3: CPOL is its bit 1, CPHA its bit 0.
    pub fn new(mode: u8) -> Spi
        requires mode { mode < 4 }
        ensures value { result ≡ idle_in mode }
        ensures sound { IsTransaction result.transaction }
    {
        Spi {
            cpol: mode / 2 == 1,
            cpha: mode % 2 == 1,
            miso: None,
            transaction: Transaction::Idle,
        }
    }

    // Whether SCK stands away from CPOL.
    fn is_away(&self, sck: bool) -> bool
        ensures { result ≡ is_away self.now.cpol sck }
    {
        if self.cpol { !sck } else { sck }
    }

    fn leads(&self, before: Wires, now: Wires) -> bool
        ensures { result ≡ leads self.now before now }
    {
        self.is_away(now.sck) && !self.is_away(before.sck)
    }

    fn trails(&self, before: Wires, now: Wires) -> bool
        ensures { result ≡ trails self.now before now }
    {
        self.is_away(before.sck) && !self.is_away(now.sck)
    }

    fn reads_bit(&self, before: Wires, now: Wires) -> bool
        ensures { result ≡ reads_bit self.now before now }
    {
        if self.cpha {
            self.trails(before, now)
        } else {
            self.leads(before, now)
        }
    }

    fn presents(&self, before: Wires, now: Wires) -> bool
        ensures { result ≡ presents self.now before now }
    {
        if self.cpha {
            self.leads(before, now)
        } else {
            self.trails(before, now)
        }
    }

    /// One cycle, from what the wires read in the cycle before and read in this one: what it asks for, in this order.
    pub fn step(
        &mut self,
        cycle: u64,
        before: Wires,
        now: Wires,
    ) -> (Option<EngineRequest>, Option<EngineRequest>)
        requires sound { IsTransaction self.old.transaction }
        ensures asks { option_to_list result.0 ++ option_to_list result.1 ≡ (spi_step self.old cycle before now).1 }
        ensures state { self.new ≡ (spi_step self.old cycle before now).0 }
        ensures sound { IsTransaction self.new.transaction }
        ensures stands { Stands self.old.transaction cycle → Stands self.new.transaction (cycle + 1) }
    {
        let reads = self.reads_bit(before, now);
        let presents = self.presents(before, now);
        self.go(cycle, reads, presents, now.mosi)
    }

    fn go(
        &mut self,
        cycle: u64,
        reads: bool,
        presents: bool,
        mosi: bool,
    ) -> (Option<EngineRequest>, Option<EngineRequest>)
        requires sound { IsTransaction self.old.transaction }
        ensures asks { option_to_list result.0 ++ option_to_list result.1 ≡ (moved self.old self.old.transaction cycle reads presents mosi).1 }
        ensures state { self.new ≡ (moved self.old self.old.transaction cycle reads presents mosi).0 }
        ensures sound { IsTransaction self.new.transaction }
        ensures stands { Stands self.old.transaction cycle → Stands self.new.transaction (cycle + 1) }
    {
        match self.transaction {
            Transaction::Opening(buffer, turn) if turn == cycle => {
                self.open(buffer, reads, mosi)
            }
            Transaction::Between(buffer) if presents => self.open(buffer, false, mosi),
            Transaction::Shifting(buffer, shift) => {
                if reads {
                    return self.read_bit(buffer, shift, mosi);
                }
                if presents {
                    self.miso = Some(has_bit(shift.out, 7 - shift.place));
                }
                (None, None)
            }
            Transaction::Stopped(bytes, turn) if turn == cycle => {
                self.miso = None;
                self.transaction = Transaction::Idle;
                (Some(EngineRequest::Done(bytes)), None)
            }
            _ => (None, None),
        }
    }

    // A byte is fetched, in the turn of an edge that reads its first bit or not.
    fn open(
        &mut self,
        buffer: Buffer,
        reads: bool,
        mosi: bool,
    ) -> (Option<EngineRequest>, Option<EngineRequest>)
        requires index { buffer.index < buffer.count }
        ensures asks { option_to_list result.0 ++ option_to_list result.1 ≡ (loaded self.old buffer reads mosi).1 }
        ensures state { self.new ≡ (loaded self.old buffer reads mosi).0 }
        ensures stands { (t : ℕ) → Stands self.new.transaction t }
    {
        let shift = Shift::fresh();
        self.miso = Some(false);
        self.transaction = Transaction::Shifting(
            buffer,
            if reads { shift.with_read(mosi) } else { shift },
        );
        (Some(EngineRequest::Fetch(buffer.index)), None)
    }

    fn read_bit(
        &mut self,
        buffer: Buffer,
        shift: Shift,
        mosi: bool,
    ) -> (Option<EngineRequest>, Option<EngineRequest>)
        requires index { buffer.index < buffer.count }
        requires place { shift.place ≤ 7 }
        ensures asks { option_to_list result.0 ++ option_to_list result.1 ≡ (bit_read self.old buffer shift mosi).1 }
        ensures state { self.new ≡ (bit_read self.old buffer shift mosi).0 }
        ensures stands { (t : ℕ) → Stands self.new.transaction t }
    {
        let next = shift.with_read(mosi);
        if shift.place < 7 {
            self.transaction = Transaction::Shifting(buffer, next);
            (None, None)
        } else {
            self.end_byte(buffer, next.read)
        }
    }

    fn end_byte(
        &mut self,
        buffer: Buffer,
        byte: u8,
    ) -> (Option<EngineRequest>, Option<EngineRequest>)
        requires index { buffer.index < buffer.count }
        ensures asks { option_to_list result.0 ++ option_to_list result.1 ≡ (byte_over self.old buffer byte).1 }
        ensures state { self.new ≡ (byte_over self.old buffer byte).0 }
        ensures stands { (t : ℕ) → Stands self.new.transaction t }
    {
        let store = Some(EngineRequest::Store(buffer.index, byte));
        let index = buffer.index + 1;
        if index == buffer.count {
            self.miso = None;
            self.transaction = Transaction::Idle;
            (store, Some(EngineRequest::Done(buffer.count)))
        } else {
            self.transaction = Transaction::Between(Buffer { index, ..buffer });
            (store, None)
        }
    }

    /// A call of `count` bytes, whose first turn is that of this cycle.
    pub fn begin(&mut self, count: u32, turn: u64)
        requires count { 0 < count }
        ensures state { self.new ≡ opened self.old count turn }
        ensures stands { (t : ℕ) → t ≤ turn → Stands self.new.transaction t }
    {
        let buffer = Buffer { count, index: 0 };
        self.transaction = if self.cpha {
            Transaction::Between(buffer)
        } else {
            Transaction::Opening(buffer, turn)
        };
    }

    /// A transaction that waits for its first turn has it in this cycle.
    pub fn open_in(&mut self, turn: u64)
        ensures state { self.new ≡ record self.old { transaction = opens_in self.old.transaction turn } }
        ensures sound { IsTransaction self.old.transaction → IsTransaction self.new.transaction }
    {
        if let Transaction::Opening(buffer, _) = self.transaction {
            self.transaction = Transaction::Opening(buffer, turn);
        }
    }

    /// Whether a transaction waits for its first turn.
    pub fn is_opening(&self) -> bool
        ensures { result ≡ is_opening self.now.transaction }
    {
        match self.transaction {
            Transaction::Opening(..) => true,
            Transaction::Idle
            | Transaction::Between(_)
            | Transaction::Shifting(..)
            | Transaction::Stopped(..) => false,
        }
    }

    /// It is stopped: no edge counts any more, and `Done` comes in this cycle's turn.
    pub fn stop(&mut self, turn: u64)
        ensures state { self.new ≡ record self.old { transaction = stopped self.old.transaction turn } }
        ensures sound { IsTransaction self.old.transaction → IsTransaction self.new.transaction }
        ensures stands { (t : ℕ) → t ≤ turn → Stands self.old.transaction t → Stands self.new.transaction t }
    {
        self.transaction = match self.transaction {
            Transaction::Idle => Transaction::Idle,
            Transaction::Opening(buffer, _)
            | Transaction::Between(buffer)
            | Transaction::Shifting(buffer, _) => Transaction::Stopped(buffer.index, turn),
            Transaction::Stopped(bytes, turn) => Transaction::Stopped(bytes, turn),
        };
    }

    /// With the byte that was fetched: its first bit is presented.
    pub fn give(&mut self, value: u8)
        ensures state { self.new ≡ with_byte self.old self.old.transaction value }
        ensures sound { IsTransaction self.old.transaction → IsTransaction self.new.transaction }
    {
        if let Transaction::Shifting(buffer, shift) = self.transaction {
            self.miso = Some(has_bit(value, 7));
            self.transaction = Transaction::Shifting(
                buffer,
                Shift {
                    out: value,
                    ..shift
                },
            );
        }
    }

    /// The cycle in whose turn it goes on though SCK stays.
    pub fn next_turn(&self) -> Option<u64>
        ensures { result ≡ next_turn self.now.transaction }
    {
        match self.transaction {
            Transaction::Opening(_, turn) | Transaction::Stopped(_, turn) => Some(turn),
            Transaction::Idle | Transaction::Between(_) | Transaction::Shifting(..) => None,
        }
    }

    pub fn is_open(&self) -> bool
        ensures { result ≡ is_open self.now.transaction }
    {
        match self.transaction {
            Transaction::Idle => false,
            Transaction::Opening(..)
            | Transaction::Between(_)
            | Transaction::Shifting(..)
            | Transaction::Stopped(..) => true,
        }
    }
}
