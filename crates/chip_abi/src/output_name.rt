//! The functions by which a chip prints and draws.
ghost use Rattle.std.specs.Prelude.{◌≡◌};
ghost use Rattle.chip_abi.specs.HostNames.{output_row};

use wasm_code::ValType;

/// A call on a chip's console or its display.
#[derive(Clone, Copy, Debug, PartialEq, Eq)]
pub enum OutputName {
    FdWrite,
    FdFdstatGet,
    FdSeek,
    FdClose,
    FramebufferInit,
    BufferWrite,
    BufferRead,
}

pub(crate) fn output_params(name: OutputName) -> &'static [ValType]
    ensures { result.now ≡ (output_row name).params }
{
    match name {
        OutputName::FdWrite | OutputName::BufferWrite | OutputName::BufferRead => {
            &[ValType::I32, ValType::I32, ValType::I32, ValType::I32]
        }
        OutputName::FdFdstatGet | OutputName::FramebufferInit => &[ValType::I32, ValType::I32],
        OutputName::FdSeek => &[ValType::I32, ValType::I64, ValType::I32, ValType::I32],
        OutputName::FdClose => &[ValType::I32],
    }
}

pub(crate) fn output_results(name: OutputName) -> &'static [ValType]
    ensures { result.now ≡ (output_row name).results }
{
    match name {
        OutputName::FdWrite
        | OutputName::FdFdstatGet
        | OutputName::FdSeek
        | OutputName::FdClose
        | OutputName::FramebufferInit => &[ValType::I32],
        OutputName::BufferWrite | OutputName::BufferRead => &[],
    }
}
