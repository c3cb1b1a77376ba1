//! Instructions behind the byte `FC`.
ghost use Rattle.std.specs.Prelude.{◌≡◌, Ok, Err};
ghost use Rattle.wasm_decode.specs.InstrText.{is_prefixed, judge_prefixed, zeros_behind as zeros_form, prefix_number as number_form, memory_copy as copy_form, memory_fill as fill_form, prefixed_of as of_form, prefixed as prefixed_form};
ghost use Rattle.wasm_binary.specs.Form.{byte as byte_form};
ghost use Rattle.wasm_binary.specs.Reads.{Decodes};

use sim_base::Fault;
use sim_refusals::numbers::WASM_OPCODE;
use wasm_binary::{Reader, refused, tag, zero};
use wasm_code::{FloatInstr, Instr, truncate_row};

pub fn prefixed(reader: &mut Reader) -> Result<Instr, Fault>
    ensures { Decodes prefixed_form result reader.old reader.new }
{
    let n = prefix_number(reader)?;
    prefixed_of(reader, n)
}

/// What stands behind the number.
fn prefixed_of(reader: &mut Reader, n: u8) -> Result<Instr, Fault>
    ensures { Decodes (of_form n) result reader.old reader.new }
{
    if n == 10 {
        return memory_copy(reader);
    }
    if n == 11 {
        return memory_fill(reader);
    }
    Ok(Instr::Float(FloatInstr::Truncate(n)))
}

fn prefix_number(reader: &mut Reader) -> Result<u8, Fault>
    ensures { Decodes number_form result reader.old reader.new }
{
    let byte = first_byte(reader)?;
    zeros_behind(reader, byte)?;
    Ok(byte % 128)
}

fn first_byte(reader: &mut Reader) -> Result<u8, Fault>
    ensures { Decodes (byte_form judge_prefixed) result reader.old reader.new }
{
    let place = reader.at;
    let byte = reader.byte()?;
    if !is_prefixed(byte % 128) {
        return Err(refused(WASM_OPCODE, place));
    }
    Ok(byte)
}

fn is_prefixed(n: u8) -> bool
    ensures { result ≡ is_prefixed n }
{
    truncate_row(n).is_some() || n == 10 || n == 11
}

fn zeros_behind(reader: &mut Reader, byte: u8) -> Result<u64, Fault>
    ensures { Decodes (zeros_form byte) result reader.old reader.new }
{
    if byte < 128 {
        return Ok(0);
    }
    zero(reader, 25, WASM_OPCODE)
}

fn memory_copy(reader: &mut Reader) -> Result<Instr, Fault>
    ensures { Decodes copy_form result reader.old reader.new }
{
    tag(reader, 0x00, WASM_OPCODE)?;
    tag(reader, 0x00, WASM_OPCODE)?;
    Ok(Instr::MemoryCopy)
}

fn memory_fill(reader: &mut Reader) -> Result<Instr, Fault>
    ensures { Decodes fill_form result reader.old reader.new }
{
    tag(reader, 0x00, WASM_OPCODE)?;
    Ok(Instr::MemoryFill)
}
