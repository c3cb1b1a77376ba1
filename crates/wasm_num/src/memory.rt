//! Memories ("Memory Instances" and "Memory Instructions" of the core specification).
ghost use Rattle.std.specs.Prelude.{◌≡◌, ◌+◌, ◌*◌, ◌≤◌, ◌<◌, IfOk, length, nat_le, min, replicate, take, drop, if◌then◌else◌, ◌-◌, ◌^◌, slice_set, Ok};
ghost use Rattle.std.specs.Option.{option_map_or, ForSome};
ghost use Rattle.std.specs.Int.{w8, w16, w32, w64};
ghost use Rattle.wasm_num.specs.Mem.{Mem, size, grown, grow_answer, put, read, written, IsAccess, load, IsStore, stored, store_width, has, can_copy, copied, filled, IsDone, IsWhole};

use crate::bytes::{get8, get16, get32, get64, set8, set16, set32, set64};
use crate::trap::Trap;
use crate::value::Value;
use crate::{int32, int64};
use sim_base::OutOfMemory;
use std::alloc::Global;
use std::marker::Model;
use wasm_code::{LoadOp, StoreOp};

/// How many bytes a page has.
pub const PAGE: usize = 65_536;
/// How many pages a memory can have at most.
pub const MOST_PAGES: u32 = 64;

/// A memory, whose room for all pages to which it can grow is taken when it is made.
#[derive(Drop)]
pub struct Memory {
    data: Vec<u8>,
    limit: u32,
}

impl Model for Memory {
    ghost use Rattle.std.specs.Prelude.{◌≤◌, ◌*◌};
    ghost use Rattle.std.specs.Vec.{vec_capacity};
    ghost use Rattle.wasm_num.specs.Mem.{Mem, IsWhole};

    ghost Value = { Mem };

    ghost view = { λ a. record { bytes = a.data.items; limit = a.limit } };

    ghost invariant = { λ a. IsWhole (record { bytes = a.data.items; limit = a.limit }) × (a.limit * 65536 ≤ vec_capacity a.data) };
}

/// The effective address of an access, which does not wrap.
#[inline(always)]
pub fn effective(addr: u32, offset: u32) -> u64
    ensures sum { result ≡ addr + offset }
    ensures bound { result < 2 ^ 33 }
{
    u64::from(addr) + u64::from(offset)
}

impl Memory {
    /// A memory of `least` pages of zeros, which can grow to `greatest` pages, or to 64.
    pub fn new(alloc: Global, least: u32, greatest: Option<u32>) -> Result<Memory, OutOfMemory>
        requires most { least ≤ 64 }
        requires order { ForSome greatest (λ n. least ≤ n) }
        ensures bytes { IfOk result (λ m. m.bytes ≡ replicate (least * 65536) 0) }
        ensures limit { IfOk result (λ m. m.limit ≡ option_map_or (λ n. min n 64) greatest 64) }
    {
        let limit = match greatest {
            Some(pages) => pages.min(MOST_PAGES),
            None => MOST_PAGES,
        };
        let mut data = Vec::with_capacity(alloc, limit as usize * PAGE)?;
        data.resize(least as usize * PAGE, 0)?;
        Ok(Memory { data, limit })
    }

    /// How many pages it has.
    #[inline(always)]
    pub fn size(&self) -> u32
        ensures { result ≡ size self.now }
    {
        (self.data.len() / PAGE) as u32
    }

    /// Adds pages of zeros and answers the size before, or `u32::MAX` where it cannot.
    pub fn grow(&mut self, pages: u32) -> u32
        ensures answer { result ≡ grow_answer self.old pages }
        ensures after { self.new ≡ grown self.old pages }
    {
        let size = self.size();
        if pages > self.limit - size {
            return u32::MAX;
        }
        match self.data.resize((size + pages) as usize * PAGE, 0) {
            Ok(()) => size,
            Err(_) => unreachable!(),
        }
    }

    #[inline(always)]
    fn is_inside(&self, at: usize, count: usize) -> bool
        requires { at + count < 2 ^ 64 }
        ensures { result ≡ nat_le (at + count) (length self.now.bytes) }
    {
        at + count <= self.data.len()
    }

    /// All bytes.
    #[inline(always)]
    pub fn as_slice(&self) -> &[u8]
        ensures { result.now ≡ self.now.bytes }
    {
        self.data.as_slice()
    }

    /// The byte at an effective address. Trap: 2 MemoryBounds.
    #[inline(always)]
    pub fn read8(&self, address: u64) -> Result<u8, Trap>
        requires { address < 2 ^ 33 }
        ensures { result ≡ read w8 self.now address }
    {
        let at = address as usize;
        if !self.is_inside(at, 1) {
            return Err(Trap::MemoryBounds);
        }
        Ok(get8(self.data.as_slice(), at))
    }

    /// The two bytes at an effective address. Trap: 2 MemoryBounds.
    #[inline(always)]
    pub fn read16(&self, address: u64) -> Result<u16, Trap>
        requires { address < 2 ^ 33 }
        ensures { result ≡ read w16 self.now address }
    {
        let at = address as usize;
        if !self.is_inside(at, 2) {
            return Err(Trap::MemoryBounds);
        }
        Ok(get16(self.data.as_slice(), at))
    }

    /// The four bytes at an effective address. Trap: 2 MemoryBounds.
    #[inline(always)]
    pub fn read32(&self, address: u64) -> Result<u32, Trap>
        requires { address < 2 ^ 33 }
        ensures { result ≡ read w32 self.now address }
    {
        let at = address as usize;
        if !self.is_inside(at, 4) {
            return Err(Trap::MemoryBounds);
        }
        Ok(get32(self.data.as_slice(), at))
    }

    /// The eight bytes at an effective address. Trap: 2 MemoryBounds.
    #[inline(always)]
    pub fn read64(&self, address: u64) -> Result<u64, Trap>
        requires { address < 2 ^ 33 }
        ensures { result ≡ read w64 self.now address }
    {
        let at = address as usize;
        if !self.is_inside(at, 8) {
            return Err(Trap::MemoryBounds);
        }
        Ok(get64(self.data.as_slice(), at))
    }

    /// Writes a byte at an effective address. Trap: 2 MemoryBounds, which leaves all as it is.
    #[inline(always)]
    pub fn write8(&mut self, address: u64, value: u8) -> Result<(), Trap>
        requires { address < 2 ^ 33 }
        ensures trap { IsAccess result w8 self.old address }
        ensures after { self.new ≡ written w8 self.old address value }
    {
        let at = address as usize;
        if !self.is_inside(at, 1) {
            return Err(Trap::MemoryBounds);
        }
        set8(self.data.as_mut_slice(), at, value);
        Ok(())
    }

    /// Writes two bytes at an effective address. Trap: 2 MemoryBounds, which leaves all as it is.
    #[inline(always)]
    pub fn write16(&mut self, address: u64, value: u16) -> Result<(), Trap>
        requires { address < 2 ^ 33 }
        ensures trap { IsAccess result w16 self.old address }
        ensures after { self.new ≡ written w16 self.old address value }
    {
        let at = address as usize;
        if !self.is_inside(at, 2) {
            return Err(Trap::MemoryBounds);
        }
        set16(self.data.as_mut_slice(), at, value);
        Ok(())
    }

    /// Writes four bytes at an effective address. Trap: 2 MemoryBounds, which leaves all as it is.
    #[inline(always)]
    pub fn write32(&mut self, address: u64, value: u32) -> Result<(), Trap>
        requires { address < 2 ^ 33 }
        ensures trap { IsAccess result w32 self.old address }
        ensures after { self.new ≡ written w32 self.old address value }
    {
        let at = address as usize;
        if !self.is_inside(at, 4) {
            return Err(Trap::MemoryBounds);
        }
        set32(self.data.as_mut_slice(), at, value);
        Ok(())
    }

    /// Writes eight bytes at an effective address. Trap: 2 MemoryBounds, which leaves all as it is.
    #[inline(always)]
    pub fn write64(&mut self, address: u64, value: u64) -> Result<(), Trap>
        requires { address < 2 ^ 33 }
        ensures trap { IsAccess result w64 self.old address }
        ensures after { self.new ≡ written w64 self.old address value }
    {
        let at = address as usize;
        if !self.is_inside(at, 8) {
            return Err(Trap::MemoryBounds);
        }
        set64(self.data.as_mut_slice(), at, value);
        Ok(())
    }

    /// A load at an address and an offset. Trap: 2 MemoryBounds.
    pub fn load(&self, op: LoadOp, addr: u32, offset: u32) -> Result<Value, Trap>
        ensures { result ≡ load op self.now (addr + offset) }
    {
        let at = effective(addr, offset);
        match op {
            LoadOp::I32Load => Ok(Value::I32(self.read32(at)?)),
            LoadOp::I64Load => Ok(Value::I64(self.read64(at)?)),
            LoadOp::I32Load8S => Ok(Value::I32(int32::extend8_s(self.read8(at)?))),
            LoadOp::I32Load8U => Ok(Value::I32(u32::from(self.read8(at)?))),
            LoadOp::I32Load16S => Ok(Value::I32(int32::extend16_s(self.read16(at)?))),
            LoadOp::I32Load16U => Ok(Value::I32(u32::from(self.read16(at)?))),
            LoadOp::I64Load8S => Ok(Value::I64(int64::extend8_s(self.read8(at)?))),
            LoadOp::I64Load8U => Ok(Value::I64(u64::from(self.read8(at)?))),
            LoadOp::I64Load16S => Ok(Value::I64(int64::extend16_s(self.read16(at)?))),
            LoadOp::I64Load16U => Ok(Value::I64(u64::from(self.read16(at)?))),
            LoadOp::I64Load32S => Ok(Value::I64(int64::extend32_s(self.read32(at)?))),
            LoadOp::I64Load32U => Ok(Value::I64(u64::from(self.read32(at)?))),
        }
    }

    /// A store at an address and an offset. Trap: 2 MemoryBounds, which leaves all as it is.
    pub fn store(&mut self, op: StoreOp, addr: u32, offset: u32, v: Value) -> Result<(), Trap>
        requires { IsStore op v }
        ensures trap { IsAccess result (store_width op) self.old (addr + offset) }
        ensures after { self.new ≡ stored op self.old (addr + offset) v }
    {
        let at = effective(addr, offset);
        match (op, v) {
            (StoreOp::I32Store, Value::I32(n)) => self.write32(at, n),
            (StoreOp::I32Store8, Value::I32(n)) => self.write8(at, (n % 0x100) as u8),
            (StoreOp::I32Store16, Value::I32(n)) => self.write16(at, (n % 0x1_0000) as u16),
            (StoreOp::I64Store, Value::I64(n)) => self.write64(at, n),
            (StoreOp::I64Store8, Value::I64(n)) => self.write8(at, (n % 0x100) as u8),
            (StoreOp::I64Store16, Value::I64(n)) => self.write16(at, (n % 0x1_0000) as u16),
            (StoreOp::I64Store32, Value::I64(n)) => self.write32(at, (n % 0x1_0000_0000) as u32),
            _ => unreachable!(),
        }
    }

    /// Whether it has so many bytes from an address on.
    #[inline(always)]
    pub fn has(&self, at: u32, n: u32) -> bool
        ensures { result ≡ has self.now at n }
    {
        self.is_inside(at as usize, n as usize)
    }

    /// Whether it has so many bytes from both addresses on.
    #[inline(always)]
    pub fn can_copy(&self, to: u32, from: u32, n: u32) -> bool
        ensures { result ≡ can_copy self.now to from n }
    {
        self.has(to, n) && self.has(from, n)
    }

    /// Copies n bytes from one address to another, as they are before; the ranges may overlap. Trap: 2 MemoryBounds where
    /// one of them passes the end, which leaves all as it is.
    pub fn copy(&mut self, to: u32, from: u32, n: u32) -> Result<(), Trap>
        ensures trap { IsDone result (can_copy self.old to from n) }
        ensures after { self.new ≡ copied self.old to from n }
    {
        if !self.can_copy(to, from, n) {
            return Err(Trap::MemoryBounds);
        }
        self.move_bytes(to as usize, from as usize, n as usize);
        Ok(())
    }

    fn move_bytes(&mut self, to: usize, from: usize, n: usize)
        requires to { to + n ≤ length self.old.bytes }
        requires from { from + n ≤ length self.old.bytes }
        ensures bytes { self.new.bytes ≡ put to (take n (drop from self.old.bytes)) self.old.bytes }
        ensures limit { self.new.limit ≡ self.old.limit }
    {
        self.data.copy_within(from..from + n, to);
    }

    /// Puts a byte into n places from an address on. Trap: 2 MemoryBounds where they pass the end, which leaves all as it
    /// is.
    pub fn fill(&mut self, to: u32, value: u8, n: u32) -> Result<(), Trap>
        ensures trap { IsDone result (has self.old to n) }
        ensures after { self.new ≡ filled self.old to value n }
    {
        if !self.has(to, n) {
            return Err(Trap::MemoryBounds);
        }
        self.put_bytes(to as usize, value, n as usize);
        Ok(())
    }

    fn put_bytes(&mut self, to: usize, value: u8, n: usize)
        requires { to + n ≤ length self.old.bytes }
        ensures bytes { self.new.bytes ≡ put to (replicate n value) self.old.bytes }
        ensures limit { self.new.limit ≡ self.old.limit }
    {
        self.data[to..to + n].fill(value);
    }

    /// Writes bytes from a place on, as a data segment does.
    pub fn fill_from(&mut self, at: usize, bytes: &[u8])
        requires { at + length bytes.now ≤ length self.old.bytes }
        ensures bytes { self.new.bytes ≡ put at bytes.now self.old.bytes }
        ensures limit { self.new.limit ≡ self.old.limit }
    {
        self.data[at..at + bytes.len()].copy_from_slice(bytes);
    }

    /// Changes one byte.
    pub fn set_byte(&mut self, at: usize, value: u8)
        requires { at < length self.old.bytes }
        ensures bytes { self.new.bytes ≡ slice_set self.old.bytes at value }
        ensures limit { self.new.limit ≡ self.old.limit }
    {
        self.data[at] = value;
    }
}
