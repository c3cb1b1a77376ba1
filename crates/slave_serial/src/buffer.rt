//! The bytes of a call.

/// How many bytes are to go, and which of them is next or on its way, counted from 0.
#[derive(Clone, Copy)]
pub struct Buffer {
    pub count: u32,
    pub index: u32,
}
