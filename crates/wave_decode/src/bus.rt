//! Serial buses, and what is heard on one.

/// A serial bus. A UART has one line, its bits last so many cycles, 2 to 1,000,000; SPI has the lines
/// SCK and data and a mode from 0 to 3; I2C has the lines SCL and SDA.
#[derive(Clone, Copy, Debug, PartialEq, Eq)]
pub enum Bus {
    Uart { bit: u32 },
    Spi { mode: u8 },
    I2c,
}

/// What is known of a bus in a cycle: from where on reading goes on, whether a START came and no STOP
/// since, how many bits of a byte came, and the last eight bits.
#[derive(Clone, Copy)]
pub struct Heard {
    pub from: u32,
    pub started: bool,
    pub count: u8,
    pub value: u8,
}
