//! Values ("Values" of the core specification).

/// A number of a type: an integer is its unsigned value, a float its bits. No operation takes or gives a float.
#[derive(Clone, Copy)]
pub enum Value {
    I32(u32),
    I64(u64),
    F32(u32),
    F64(u64),
}
