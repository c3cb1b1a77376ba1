//! The host calls on a chip's output, by their names.
ghost use Rattle.std.specs.Prelude.{◌≡◌, length, IfOk};
ghost use Rattle.std.specs.Option.{option_to_list};
ghost use Rattle.wasm_semantics.specs.Values.{HasTypes};
ghost use Rattle.chip_abi.specs.HostNames.{output_row};
ghost use Rattle.chip_output.specs.Calls.{output_does};

use crate::output::Output;
use chip_abi::OutputName;
use wasm_num::{Memory, Trap, Value};

impl Output {
    /// A call; `init` tells whether the chip is being set up.
    pub fn does(
        &mut self,
        name: OutputName,
        args: &[Value],
        init: bool,
        memory: &mut Memory,
    ) -> Result<Option<Value>, Trap>
        requires { HasTypes args.now (output_row name).params }
        ensures answer { result ≡ (output_does name args.now init memory.old self.old).answer }
        ensures output { self.new ≡ (output_does name args.now init memory.old self.old).host }
        ensures memory { memory.new ≡ (output_does name args.now init memory.old self.old).memory }
        ensures size { length memory.new.bytes ≡ length memory.old.bytes }
        ensures gives { IfOk result (λ v. HasTypes (option_to_list v) (output_row name).results) }
    {
        match name {
            OutputName::FdWrite => match args {
                [
                    Value::I32(file),
                    Value::I32(list),
                    Value::I32(count),
                    Value::I32(sum),
                ] => self.fd_write(*file, *list, *count, *sum, memory),
                _ => Err(Trap::Unreachable),
            },
            OutputName::FdFdstatGet => match args {
                [Value::I32(file), Value::I32(address)] => {
                    self.fd_fdstat_get(*file, *address, memory)
                }
                _ => Err(Trap::Unreachable),
            },
            OutputName::FdSeek => match args {
                [
                    Value::I32(file),
                    Value::I64(_),
                    Value::I32(_),
                    Value::I32(_),
                ] => self.fd_seek(*file, memory),
                _ => Err(Trap::Unreachable),
            },
            OutputName::FdClose => match args {
                [Value::I32(file)] => self.fd_close(*file, memory),
                _ => Err(Trap::Unreachable),
            },
            OutputName::FramebufferInit => match args {
                [Value::I32(width), Value::I32(height)] => {
                    self.framebuffer_init(init, *width, *height, memory)
                }
                _ => Err(Trap::Unreachable),
            },
            OutputName::BufferWrite => match args {
                [
                    Value::I32(id),
                    Value::I32(offset),
                    Value::I32(address),
                    Value::I32(count),
                ] => self.buffer_write(*id, *offset, *address, *count, memory),
                _ => Err(Trap::Unreachable),
            },
            OutputName::BufferRead => match args {
                [
                    Value::I32(id),
                    Value::I32(offset),
                    Value::I32(address),
                    Value::I32(count),
                ] => self.buffer_read(*id, *offset, *address, *count, memory),
                _ => Err(Trap::Unreachable),
            },
        }
    }
}
