//! The data space of a row.
ghost use Rattle.std.specs.Prelude.{◌%◌, slice_index, slice_set};

use avr_core::DataBus;

/// 4,096 bytes that repeat over the data space, and the last bit that was written alone.
#[derive(Drop)]
pub struct Ram {
    pub bytes: [u8; 4096],
    pub bit: (u16, u8, bool),
}

impl Ram {
    pub fn new() -> Ram {
        Ram {
            bytes: [0; 4096],
            bit: (0, 0, false),
        }
    }

    pub fn set(&mut self, addr: u16, value: u8) {
        self.bytes[addr as usize & 0xFFF] = value;
    }
}

impl DataBus for Ram {
    ghost use Rattle.rows_units.specs.declared.ram.Ram.{Ram};

    ghost State = { Ram };

    ghost bus = { record {
      answers = λ s a. slice_index s.bytes (a % 4096);
      read = λ s a. s;
      write = λ s a x. record s { bytes = slice_set s.bytes (a % 4096) x };
      write_bit = λ s a k x. record s { bit = (a, k, x) };
    } };

    ghost state = { λ s. s };

    fn read(&mut self, addr: u16) -> u8 {
        self.bytes[addr as usize & 0xFFF]
    }

    fn write(&mut self, addr: u16, value: u8) {
        self.bytes[addr as usize & 0xFFF] = value;
    }

    fn write_bit(&mut self, addr: u16, bit: u8, value: bool) {
        self.bit = (addr, bit, value);
    }
}
