//! The values of the WebAssembly binary format (integers, names, lists) and the reader that reads them (WebAssembly
//! core specification, "Binary Format").
//! Each call reads a text of its form and its value, or answers where and by which rule the bytes break. It may
//! answer out of memory where it makes a list.
#![tactic(auto)]

mod bytes;
mod leb;
mod lists;
mod name;
mod part;
mod reader;

pub use bytes::{FromByte, judged, tag};
pub use leb::{count_exactly, count_to, index, signed, zero};
pub use lists::{Decode, byte_list, list, list_to};
pub use name::read_name;
pub use part::close;
pub use reader::{Reader, refused};
