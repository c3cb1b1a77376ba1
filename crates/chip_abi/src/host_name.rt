//! The functions that a chip can import.
ghost use Rattle.std.specs.Prelude.{◌≡◌};
ghost use Rattle.std.specs.Prelude.{IfSome};
ghost use Rattle.chip_abi.specs.HostNames.{named_in_env, named_in_wasi, named, output_of, type_of_name};

use crate::output_name::{OutputName, output_params, output_results};
use wasm_code::ValType;

/// A function of the host, in the order of the table (`specs/HostNames.antt`).
#[derive(Clone, Copy, Debug, PartialEq, Eq)]
pub enum HostName {
    PinInit,
    PinRead,
    PinWrite,
    PinWatch,
    PinWatchStop,
    PinMode,
    AttrInit,
    AttrRead,
    TimerInit,
    TimerStart,
    TimerStartNanos,
    TimerStop,
    GetSimNanos,
    UartInit,
    UartWrite,
    SpiInit,
    SpiStart,
    SpiStop,
    I2cInit,
    Output(OutputName),
}

impl HostName {
    /// The call on the output that it is.
    pub fn output(self) -> Option<OutputName>
        ensures value { result ≡ output_of self }
        ensures is { IfSome result (λ name. self ≡ HostName.Output name) }
    {
        match self {
            HostName::Output(name) => Some(name),
            HostName::PinInit
            | HostName::PinRead
            | HostName::PinWrite
            | HostName::PinWatch
            | HostName::PinWatchStop
            | HostName::PinMode
            | HostName::AttrInit
            | HostName::AttrRead
            | HostName::TimerInit
            | HostName::TimerStart
            | HostName::TimerStartNanos
            | HostName::TimerStop
            | HostName::GetSimNanos
            | HostName::UartInit
            | HostName::UartWrite
            | HostName::SpiInit
            | HostName::SpiStart
            | HostName::SpiStop
            | HostName::I2cInit => None,
        }
    }
}

/// The function of a module with a name.
pub(crate) fn named(module: &str, name: &str) -> Option<HostName>
    ensures { result ≡ named module.now name.now }
{
    match module {
        "env" => named_in_env(name),
        "wasi_snapshot_preview1" => named_in_wasi(name),
        _ => None,
    }
}

#[tactic(auto, unfolding(crate::specs::HostNames::named_in_wasi))]
fn named_in_wasi(name: &str) -> Option<HostName>
    ensures { result ≡ named_in_wasi name.now }
{
    match name {
        "fd_write" => Some(HostName::Output(OutputName::FdWrite)),
        "fd_fdstat_get" => Some(HostName::Output(OutputName::FdFdstatGet)),
        "fd_seek" => Some(HostName::Output(OutputName::FdSeek)),
        "fd_close" => Some(HostName::Output(OutputName::FdClose)),
        _ => None,
    }
}

#[tactic(auto, unfolding(crate::specs::HostNames::named_in_env))]
fn named_in_env(name: &str) -> Option<HostName>
    ensures { result ≡ named_in_env name.now }
{
    match name {
        "pinInit" => Some(HostName::PinInit),
        "pinRead" => Some(HostName::PinRead),
        "pinWrite" => Some(HostName::PinWrite),
        "pinWatch" => Some(HostName::PinWatch),
        "pinWatchStop" => Some(HostName::PinWatchStop),
        "pinMode" => Some(HostName::PinMode),
        "attrInit" => Some(HostName::AttrInit),
        "attrRead" => Some(HostName::AttrRead),
        "timerInit" => Some(HostName::TimerInit),
        "timerStart" => Some(HostName::TimerStart),
        "timerStartNanos" => Some(HostName::TimerStartNanos),
        "timerStop" => Some(HostName::TimerStop),
        "getSimNanos" => Some(HostName::GetSimNanos),
        "uartInit" => Some(HostName::UartInit),
        "uartWrite" => Some(HostName::UartWrite),
        "spiInit" => Some(HostName::SpiInit),
        "spiStart" => Some(HostName::SpiStart),
        "spiStop" => Some(HostName::SpiStop),
        "i2cInit" => Some(HostName::I2cInit),
        "framebufferInit" => Some(HostName::Output(OutputName::FramebufferInit)),
        "bufferWrite" => Some(HostName::Output(OutputName::BufferWrite)),
        "bufferRead" => Some(HostName::Output(OutputName::BufferRead)),
        _ => None,
    }
}

pub(crate) fn params_of(name: HostName) -> &'static [ValType]
    ensures { result.now ≡ (type_of_name name).params }
{
    match name {
        HostName::PinInit
        | HostName::PinWrite
        | HostName::PinWatch
        | HostName::PinMode
        | HostName::AttrInit => &[ValType::I32, ValType::I32],
        HostName::PinRead
        | HostName::PinWatchStop
        | HostName::AttrRead
        | HostName::TimerInit
        | HostName::TimerStop
        | HostName::UartInit
        | HostName::SpiInit
        | HostName::SpiStop
        | HostName::I2cInit => &[ValType::I32],
        HostName::TimerStart | HostName::UartWrite | HostName::SpiStart => &[
            ValType::I32,
            ValType::I32,
            ValType::I32,
        ],
        HostName::TimerStartNanos => &[ValType::I32, ValType::I64, ValType::I32],
        HostName::GetSimNanos => &[],
        HostName::Output(name) => output_params(name),
    }
}

pub(crate) fn results_of(name: HostName) -> &'static [ValType]
    ensures { result.now ≡ (type_of_name name).results }
{
    match name {
        HostName::PinInit
        | HostName::PinRead
        | HostName::PinWatch
        | HostName::AttrInit
        | HostName::AttrRead
        | HostName::TimerInit
        | HostName::UartInit
        | HostName::UartWrite
        | HostName::SpiInit
        | HostName::I2cInit => &[ValType::I32],
        HostName::GetSimNanos => &[ValType::I64],
        HostName::PinWrite
        | HostName::PinWatchStop
        | HostName::PinMode
        | HostName::TimerStart
        | HostName::TimerStartNanos
        | HostName::TimerStop
        | HostName::SpiStart
        | HostName::SpiStop => &[],
        HostName::Output(name) => output_results(name),
    }
}
