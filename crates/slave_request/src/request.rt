//! What an engine asks for.

/// What a chip's engine asks for. Fetch and Store name a byte of the buffer, counted from 0; Received, Sent and Done
/// are the callbacks `rx_data`, `write_done` and `done`; the last four are the callbacks of I2C: Connect has the
/// address and whether the master reads.
#[derive(Clone, Copy, Debug, PartialEq, Eq)]
pub enum EngineRequest {
    None,
    Fetch(u32),
    Store(u32, u8),
    Received(u8),
    Sent,
    Done(u32),
    Connect(u8, bool),
    Read,
    Write(u8),
    Disconnect,
}
