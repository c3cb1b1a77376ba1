//! LEB128 numbers.
ghost use Rattle.std.specs.Prelude.{◌≡◌, ◌+◌, ◌-◌, ◌^◌, zero, [], ◌∷◌, ◌/◌, ◌<◌, ◌≤◌, IfOk, IfErr, Ok, Err, MatchResult};
ghost use Rattle.sim_base.specs.declared.fault.Fault.TheVariants as faults;
ghost use Rattle.sim_base.specs.declared.fault.Place.TheVariants as places;
ghost use Rattle.sim_refusals.specs.Refusals.{WasmLeb};
ghost use Rattle.wasm_binary.specs.Reads.{Decodes};
ghost use Rattle.wasm_binary.specs.Leb.{IsUnsigned, ByteIsFaulty, IsSigned, IsUnlikeSign, unsigned, signed as signed_form, u32 as any_u32, at_most, exactly, high_least, high_greatest};

use crate::reader::{Reader, refused};
use sim_base::Fault;
use sim_refusals::numbers::{WASM_COUNT, WASM_LEB, WASM_LIMIT};

/// A u32 index or size.
pub fn index(reader: &mut Reader) -> Result<u32, Fault>
    ensures { Decodes any_u32 result reader.old reader.new }
{
    let number = unsigned(reader, 32, 0, 0xFFFF_FFFF, WASM_LEB)?;
    Ok(number as u32)
}

/// A count of at most so many; 69 where none is left.
pub fn count_to(reader: &mut Reader, greatest: u32) -> Result<u32, Fault>
    ensures { Decodes (at_most greatest) result reader.old reader.new }
{
    let number = unsigned(reader, 32, 0, u64::from(greatest), WASM_LIMIT)?;
    Ok(number as u32)
}

/// The count that is wanted; 68 where it is not left.
pub fn count_exactly(reader: &mut Reader, wanted: usize) -> Result<u32, Fault>
    requires { wanted < 2 ^ 63 }
    ensures { Decodes (exactly wanted) result reader.old reader.new }
{
    let number = unsigned(reader, 32, wanted as u64, wanted as u64, WASM_COUNT)?;
    Ok(number as u32)
}

/// A number of so many bits that must be zero; `rule` where that is not left.
pub fn zero(reader: &mut Reader, bits: u8, rule: u8) -> Result<u64, Fault>
    requires { bits ≤ 32 }
    ensures { Decodes (unsigned bits 0 0 rule) result reader.old reader.new }
{
    unsigned(reader, bits, 0, 0, rule)
}

/// An unsigned number of so many bits from least to greatest; `rule` where none is left.
fn unsigned(
    reader: &mut Reader,
    bits: u8,
    least: u64,
    greatest: u64,
    rule: u8,
) -> Result<u64, Fault>
    requires few { bits ≤ 32 }
    requires small { least < 2 ^ 63 }
    ensures decodes { Decodes (unsigned bits least greatest rule) result reader.old reader.new }
    ensures fits { IfOk result (λ n. n < 2 ^ bits) }
{
    let place = reader.at;
    let byte = u64::from(reader.byte()?);
    if byte < 128 {
        return last(byte, bits, least, greatest, rule, place);
    }
    if bits <= 7 {
        return Err(refused(WASM_LEB, place));
    }
    let low = byte - 128;
    if greatest < low {
        return Err(refused(rule, place));
    }
    let high_greatest = (greatest - low) / 128;
    let high_least = (least.saturating_sub(low) + 127) / 128;
    if high_greatest < high_least {
        return Err(refused(rule, place));
    }
    let high = unsigned(reader, bits - 7, high_least, high_greatest, rule)?;
    Ok(low + 128 * high)
}

fn last(byte: u64, bits: u8, least: u64, greatest: u64, rule: u8, place: u32) -> Result<u64, Fault>
    requires low { byte < 128 }
    requires few { bits ≤ 32 }
    ensures ok { IfOk result (λ n. (n ≡ byte) × (byte < 2 ^ bits) × (least ≤ byte) × (byte ≤ greatest)) }
    ensures err { IfErr result (λ e. (number : _) × (e ≡ faults.Refused (record { number = number; place = places.Byte place })) × ByteIsFaulty bits least greatest rule byte number) }
{
    let limit = 1u64 << bits;
    if limit <= byte {
        return Err(refused(WASM_LEB, place));
    }
    if byte < least || greatest < byte {
        return Err(refused(rule, place));
    }
    Ok(byte)
}

/// A signed number of so many bits, in two's complement.
pub fn signed(reader: &mut Reader, bits: u8) -> Result<u64, Fault>
    requires some { 0 < bits }
    requires fits { bits ≤ 64 }
    ensures decodes { Decodes (signed_form bits) result reader.old reader.new }
    ensures fits { IfOk result (λ n. n < 2 ^ bits) }
{
    let place = reader.at;
    let byte = u64::from(reader.byte()?);
    if byte < 128 {
        return last_signed(byte, bits, place);
    }
    if bits <= 7 {
        return Err(refused(WASM_LEB, place));
    }
    let high = signed(reader, bits - 7)?;
    Ok(byte - 128 + 128 * high)
}

fn last_signed(byte: u64, bits: u8, place: u32) -> Result<u64, Fault>
    requires low { byte < 128 }
    requires some { 0 < bits }
    requires few { bits ≤ 64 }
    ensures ok { IfOk result (λ n. IsSigned bits (byte ∷ []) n) }
    ensures fits { IfOk result (λ n. n < 2 ^ bits) }
    ensures err { IfErr result (λ e. (e ≡ faults.Refused (record { number = WasmLeb; place = places.Byte place })) × IsUnlikeSign bits byte) }
{
    let ones = all_ones(bits);
    let below = if byte < 64 { byte } else { 127 - byte };
    if below > ones / 2 {
        return Err(refused(WASM_LEB, place));
    }
    Ok(if byte < 64 { byte } else { ones - below })
}

fn all_ones(bits: u8) -> u64
    requires some { 0 < bits }
    requires few { bits ≤ 64 }
    ensures whole { result + 1 ≡ 2 ^ bits }
    ensures half { result / 2 + 1 ≡ 2 ^ (bits - 1) }
{
    u64::MAX >> (64 - bits)
}
