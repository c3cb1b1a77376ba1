//! Numbers as bytes, the lowest first ("Storage" of the core specification).
ghost use Rattle.std.specs.Prelude.{◌≡◌, ◌+◌, ◌≤◌, ◌<◌, length, take, drop};
ghost use Rattle.std.specs.Int.{w8, w16, w32, w64, from_le_bytes, to_le_bytes};
ghost use Rattle.wasm_num.specs.Mem.{put};

#[inline(always)]
pub fn get8(bytes: &[u8], at: usize) -> u8
    requires { at + 1 ≤ length bytes.now }
    ensures { result ≡ from_le_bytes w8 (take 1 (drop at bytes.now)) }
{
    bytes[at]
}

#[inline(always)]
pub fn get16(bytes: &[u8], at: usize) -> u16
    requires { at + 2 ≤ length bytes.now }
    ensures { result ≡ from_le_bytes w16 (take 2 (drop at bytes.now)) }
{
    u16::from_le_bytes([bytes[at], bytes[at + 1]])
}

#[inline(always)]
pub fn get32(bytes: &[u8], at: usize) -> u32
    requires { at + 4 ≤ length bytes.now }
    ensures { result ≡ from_le_bytes w32 (take 4 (drop at bytes.now)) }
{
    u32::from_le_bytes([bytes[at], bytes[at + 1], bytes[at + 2], bytes[at + 3]])
}

#[inline(always)]
pub fn get64(bytes: &[u8], at: usize) -> u64
    requires { at + 8 ≤ length bytes.now }
    ensures { result ≡ from_le_bytes w64 (take 8 (drop at bytes.now)) }
{
    u64::from_le_bytes([
        bytes[at],
        bytes[at + 1],
        bytes[at + 2],
        bytes[at + 3],
        bytes[at + 4],
        bytes[at + 5],
        bytes[at + 6],
        bytes[at + 7],
    ])
}

#[inline(always)]
pub fn set8(bytes: &mut [u8], at: usize, value: u8)
    requires { at + 1 ≤ length bytes.old }
    ensures { bytes.new ≡ put at (to_le_bytes w8 value) bytes.old }
{
    bytes[at] = value;
}

#[inline(always)]
pub fn set16(bytes: &mut [u8], at: usize, value: u16)
    requires { at + 2 ≤ length bytes.old }
    ensures { bytes.new ≡ put at (to_le_bytes w16 value) bytes.old }
{
    let [a, b] = value.to_le_bytes();
    bytes[at] = a;
    bytes[at + 1] = b;
}

#[inline(always)]
pub fn set32(bytes: &mut [u8], at: usize, value: u32)
    requires { at + 4 ≤ length bytes.old }
    ensures { bytes.new ≡ put at (to_le_bytes w32 value) bytes.old }
{
    let [a, b, c, d] = value.to_le_bytes();
    bytes[at] = a;
    bytes[at + 1] = b;
    bytes[at + 2] = c;
    bytes[at + 3] = d;
}

#[inline(always)]
pub fn set64(bytes: &mut [u8], at: usize, value: u64)
    requires { at + 8 ≤ length bytes.old }
    ensures { bytes.new ≡ put at (to_le_bytes w64 value) bytes.old }
{
    let [a, b, c, d, e, f, g, h] = value.to_le_bytes();
    bytes[at] = a;
    bytes[at + 1] = b;
    bytes[at + 2] = c;
    bytes[at + 3] = d;
    bytes[at + 4] = e;
    bytes[at + 5] = f;
    bytes[at + 6] = g;
    bytes[at + 7] = h;
}
