//! From words to instructions.
ghost use Rattle.std.specs.Prelude.{◌≡◌, ℕ, ◌<◌, ◌≤◌, ◌⊎◌, ◌/◌, ◌%◌, ◌*◌, ◌+◌};
ghost use Rattle.avr_isa.specs.Encoding.{decoded, words_of, HasOperands, row_0, row_1, row_2, row_b, displaced, loads, stores, without_operands, with_one_operand, words_and_bits, row_9, row_f, d_field, r_field, upper_d, upper_r, middle_d, middle_r, pair_d, k_field, word_k, q_field, a_field, bit_a, b_field, s_field, distance7, distance12, address};

use crate::instr::Instr;

/// The instruction of a word and the one after it; `Instr::Halt` for every other word.
pub fn decode(w0: u16, w1: u16) -> Instr
    ensures instr { result ≡ decoded w0 w1 }
    ensures operands { HasOperands result }
{
    match w0 >> 12 {
        0x0 => row_0(w0),
        0x1 => row_1(w0),
        0x2 => row_2(w0),
        0x3 => Instr::Cpi(upper_d(w0), k8(w0)),
        0x4 => Instr::Sbci(upper_d(w0), k8(w0)),
        0x5 => Instr::Subi(upper_d(w0), k8(w0)),
        0x6 => Instr::Ori(upper_d(w0), k8(w0)),
        0x7 => Instr::Andi(upper_d(w0), k8(w0)),
        0x8 | 0xA => displaced(w0),
        0x9 => row_9(w0, w1),
        0xB => row_b(w0),
        0xC => Instr::Rjmp(distance12(w0)),
        0xD => Instr::Rcall(distance12(w0)),
        0xE => Instr::Ldi(upper_d(w0), k8(w0)),
        0xF => row_f(w0),
        _ => unreachable!(),
    }
}

/// The words of an instruction, 1 or 2.
pub fn words(i: Instr) -> u8
    ensures words { result ≡ words_of i }
    ensures some { 1 ≤ result }
    ensures few { result ≤ 2 }
{
    match i {
        Instr::Lds(..) | Instr::Sts(..) | Instr::Jmp(..) | Instr::Call(..) => 2,
        _ => 1,
    }
}

// 0000 ....
fn row_0(w: u16) -> Instr
    requires { w / 4096 ≡ 0 }
    ensures instr { result ≡ row_0 w }
    ensures operands { HasOperands result }
{
    match w >> 8 {
        0x0 if w == 0 => Instr::Nop,
        0x0 => Instr::Halt(w),
        0x1 => Instr::Movw(2 * high4(w), 2 * low4(w)),
        0x2 => Instr::Muls(upper_d(w), upper_r(w)),
        0x3 => products(w),
        0x4..=0x7 => Instr::Cpc(d5(w), r5(w)),
        0x8..=0xB => Instr::Sbc(d5(w), r5(w)),
        _ => Instr::Add(d5(w), r5(w)),
    }
}

// 0000 0011 ....
fn products(w: u16) -> Instr
    requires { w / 256 ≡ 3 }
    ensures instr { result ≡ row_0 w }
    ensures operands { HasOperands result }
{
    match (w >> 7 & 1, w >> 3 & 1) {
        (0, 0) => Instr::Mulsu(middle_d(w), middle_r(w)),
        (0, _) => Instr::Fmul(middle_d(w), middle_r(w)),
        (_, 0) => Instr::Fmuls(middle_d(w), middle_r(w)),
        _ => Instr::Fmulsu(middle_d(w), middle_r(w)),
    }
}

// 0001 ....
fn row_1(w: u16) -> Instr
    ensures instr { result ≡ row_1 w }
    ensures operands { HasOperands result }
{
    match w >> 10 & 3 {
        0 => Instr::Cpse(d5(w), r5(w)),
        1 => Instr::Cp(d5(w), r5(w)),
        2 => Instr::Sub(d5(w), r5(w)),
        _ => Instr::Adc(d5(w), r5(w)),
    }
}

// 0010 ....
fn row_2(w: u16) -> Instr
    ensures instr { result ≡ row_2 w }
    ensures operands { HasOperands result }
{
    match w >> 10 & 3 {
        0 => Instr::And(d5(w), r5(w)),
        1 => Instr::Eor(d5(w), r5(w)),
        2 => Instr::Or(d5(w), r5(w)),
        _ => Instr::Mov(d5(w), r5(w)),
    }
}

// 10.0 ....
fn displaced(w: u16) -> Instr
    ensures instr { result ≡ displaced w }
    ensures operands { HasOperands result }
{
    match (w >> 9 & 1, w >> 3 & 1) {
        (0, 0) => Instr::LddZ(d5(w), q6(w)),
        (0, _) => Instr::LddY(d5(w), q6(w)),
        (_, 0) => Instr::StdZ(q6(w), d5(w)),
        _ => Instr::StdY(q6(w), d5(w)),
    }
}

// 1001 ....
fn row_9(w: u16, next: u16) -> Instr
    requires { w / 4096 ≡ 9 }
    ensures instr { result ≡ row_9 w next }
    ensures operands { HasOperands result }
{
    match w >> 9 {
        0x48 => loads(w, next),
        0x49 => stores(w, next),
        0x4A => with_one_operand(w, next),
        _ => words_and_bits(w),
    }
}

// 1001 000d dddd ....
fn loads(w: u16, next: u16) -> Instr
    ensures instr { result ≡ loads w next }
    ensures operands { HasOperands result }
{
    match w & 0xF {
        0x0 => Instr::Lds(d5(w), next),
        0x1 => Instr::LdZInc(d5(w)),
        0x2 => Instr::LdZDec(d5(w)),
        0x4 => Instr::LpmZ(d5(w)),
        0x5 => Instr::LpmZInc(d5(w)),
        0x9 => Instr::LdYInc(d5(w)),
        0xA => Instr::LdYDec(d5(w)),
        0xC => Instr::LdX(d5(w)),
        0xD => Instr::LdXInc(d5(w)),
        0xE => Instr::LdXDec(d5(w)),
        0xF => Instr::Pop(d5(w)),
        _ => Instr::Halt(w),
    }
}

// 1001 001r rrrr ....
fn stores(w: u16, next: u16) -> Instr
    ensures instr { result ≡ stores w next }
    ensures operands { HasOperands result }
{
    match w & 0xF {
        0x0 => Instr::Sts(d5(w), next),
        0x1 => Instr::StZInc(d5(w)),
        0x2 => Instr::StZDec(d5(w)),
        0x9 => Instr::StYInc(d5(w)),
        0xA => Instr::StYDec(d5(w)),
        0xC => Instr::StX(d5(w)),
        0xD => Instr::StXInc(d5(w)),
        0xE => Instr::StXDec(d5(w)),
        0xF => Instr::Push(d5(w)),
        _ => Instr::Halt(w),
    }
}

// 1001 010. .... ....
fn with_one_operand(w: u16, next: u16) -> Instr
    ensures instr { result ≡ with_one_operand w next }
    ensures operands { HasOperands result }
{
    match w & 0xF {
        0x0 => Instr::Com(d5(w)),
        0x1 => Instr::Neg(d5(w)),
        0x2 => Instr::Swap(d5(w)),
        0x3 => Instr::Inc(d5(w)),
        0x5 => Instr::Asr(d5(w)),
        0x6 => Instr::Lsr(d5(w)),
        0x7 => Instr::Ror(d5(w)),
        0x8 => without_operands(w),
        0x9 => to_z(w, next),
        0xA => Instr::Dec(d5(w)),
        0xC | 0xD => Instr::Jmp(address(w, next)),
        0xE | 0xF => Instr::Call(address(w, next)),
        _ => Instr::Halt(w),
    }
}

// 1001 010. .... 1000
fn without_operands(w: u16) -> Instr
    ensures instr { result ≡ without_operands w }
    ensures operands { HasOperands result }
{
    match w >> 7 & 3 {
        0 => Instr::Bset(s3(w)),
        1 => Instr::Bclr(s3(w)),
        _ => match w {
            0x9508 => Instr::Ret,
            0x9518 => Instr::Reti,
            0x9588 => Instr::Sleep,
            0x9598 => Instr::Break,
            0x95A8 => Instr::Wdr,
            0x95C8 => Instr::Lpm,
            _ => Instr::Halt(w),
        },
    }
}

// 1001 010. .... 1001
fn to_z(w: u16, next: u16) -> Instr
    requires { w % 16 ≡ 9 }
    ensures instr { result ≡ with_one_operand w next }
    ensures operands { HasOperands result }
{
    match w {
        0x9409 => Instr::Ijmp,
        0x9509 => Instr::Icall,
        _ => Instr::Halt(w),
    }
}

// 1001 011. .... and 1001 1... ....
fn words_and_bits(w: u16) -> Instr
    ensures instr { result ≡ words_and_bits w }
    ensures operands { HasOperands result }
{
    match w >> 8 & 0xF {
        0x6 => Instr::Adiw(pair_d(w), k6(w)),
        0x7 => Instr::Sbiw(pair_d(w), k6(w)),
        0x8 => Instr::Cbi(a5(w), b3(w)),
        0x9 => Instr::Sbic(a5(w), b3(w)),
        0xA => Instr::Sbi(a5(w), b3(w)),
        0xB => Instr::Sbis(a5(w), b3(w)),
        _ => Instr::Mul(d5(w), r5(w)),
    }
}

// 1011 ....
fn row_b(w: u16) -> Instr
    ensures instr { result ≡ row_b w }
    ensures operands { HasOperands result }
{
    if w >> 11 & 1 == 0 {
        Instr::In(d5(w), a6(w))
    } else {
        Instr::Out(a6(w), d5(w))
    }
}

// 1111 ....
fn row_f(w: u16) -> Instr
    requires { w / 4096 ≡ 15 }
    ensures instr { result ≡ row_f w }
    ensures operands { HasOperands result }
{
    match w >> 10 {
        0x3C => Instr::Brbs(b3(w), distance7(w)),
        0x3D => Instr::Brbc(b3(w), distance7(w)),
        _ => one_bit(w),
    }
}

// 1111 1...
fn one_bit(w: u16) -> Instr
    requires { w / 2048 ≡ 31 }
    ensures instr { result ≡ row_f w }
    ensures operands { HasOperands result }
{
    match (w >> 9 & 3, w >> 3 & 1) {
        (0, 0) => Instr::Bld(d5(w), b3(w)),
        (1, 0) => Instr::Bst(d5(w), b3(w)),
        (2, 0) => Instr::Sbrc(d5(w), b3(w)),
        (3, 0) => Instr::Sbrs(d5(w), b3(w)),
        _ => Instr::Halt(w),
    }
}

// .... .... dddd ....
fn high4(w: u16) -> u8
    ensures field { result ≡ w / 16 % 16 }
    ensures short { result < 16 }
{
    (w >> 4 & 0xF) as u8
}

// .... .... .... rrrr
fn low4(w: u16) -> u8
    ensures field { result ≡ w % 16 }
    ensures short { result < 16 }
{
    (w & 0xF) as u8
}

// .... .... dddd ....
fn upper_d(w: u16) -> u8
    ensures field { result ≡ upper_d w }
    ensures short { result < 32 }
{
    16 + high4(w)
}

// .... .... .... rrrr
fn upper_r(w: u16) -> u8
    ensures field { result ≡ upper_r w }
    ensures short { result < 32 }
{
    16 + low4(w)
}

// .... .... .ddd ....
fn middle_d(w: u16) -> u8
    ensures field { result ≡ middle_d w }
    ensures short { result < 32 }
{
    16 + (w >> 4 & 7) as u8
}

// .... .... .... .rrr
fn middle_r(w: u16) -> u8
    ensures field { result ≡ middle_r w }
    ensures short { result < 32 }
{
    16 + (w & 7) as u8
}

// .... .... ..dd ....
fn pair_d(w: u16) -> u8
    ensures field { result ≡ pair_d w }
    ensures short { result < 31 }
{
    24 + 2 * (w >> 4 & 3) as u8
}

// .... ...d dddd ....
fn d5(w: u16) -> u8
    ensures field { result ≡ d_field w }
    ensures short { result < 32 }
{
    (w >> 4 & 0x1F) as u8
}

// .... ..r. .... rrrr
fn r5(w: u16) -> u8
    ensures field { result ≡ r_field w }
    ensures short { result < 32 }
{
    ((w >> 9 & 1) * 16 + (w & 0xF)) as u8
}

// .... KKKK .... KKKK
fn k8(w: u16) -> u8
    ensures { result ≡ k_field w }
{
    ((w >> 8 & 0xF) * 16 + (w & 0xF)) as u8
}

// .... .... KK.. KKKK
fn k6(w: u16) -> u8
    ensures field { result ≡ word_k w }
    ensures short { result < 64 }
{
    ((w >> 6 & 3) * 16 + (w & 0xF)) as u8
}

// ..q. qq.. .... .qqq
fn q6(w: u16) -> u8
    ensures field { result ≡ q_field w }
    ensures short { result < 64 }
{
    ((w >> 13 & 1) * 32 + (w >> 10 & 3) * 8 + (w & 7)) as u8
}

// .... .AA. .... AAAA
fn a6(w: u16) -> u8
    ensures field { result ≡ a_field w }
    ensures short { result < 64 }
{
    ((w >> 9 & 3) * 16 + (w & 0xF)) as u8
}

// .... .... AAAA A...
fn a5(w: u16) -> u8
    ensures field { result ≡ bit_a w }
    ensures short { result < 32 }
{
    (w >> 3 & 0x1F) as u8
}

// .... .... .... .bbb
fn b3(w: u16) -> u8
    ensures field { result ≡ b_field w }
    ensures short { result < 8 }
{
    (w & 7) as u8
}

// .... .... .sss ....
fn s3(w: u16) -> u8
    ensures field { result ≡ s_field w }
    ensures short { result < 8 }
{
    (w >> 4 & 7) as u8
}

// .... ..kk kkkk k...
fn distance7(w: u16) -> u16
    ensures field { result ≡ distance7 w }
    ensures short { result < 16384 }
{
    let k = w >> 3 & 0x7F;
    if w >> 9 & 1 == 0 { k } else { k + 0x3F80 }
}

// .... kkkk kkkk kkkk
fn distance12(w: u16) -> u16
    ensures field { result ≡ distance12 w }
    ensures short { result < 16384 }
{
    let k = w & 0xFFF;
    if w >> 11 & 1 == 0 { k } else { k + 0x3000 }
}

// .... ...k kkkk ...k and the second word
fn address(_w: u16, next: u16) -> u16
    ensures field { result ≡ address _w next }
    ensures short { result < 16384 }
{
    next & 0x3FFF
}
