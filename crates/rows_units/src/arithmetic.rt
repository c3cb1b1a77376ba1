//! Values and flags: ADD and SUB on all operands against flags worked out in another way, and rows of the rest.
ghost use Rattle.std.specs.Prelude.{pos, ◌+ℤ◌, ◌≤ℤ◌, ◌<◌};

use crate::words::{byte, word};
use avr_alu::{Flags, add, adiw, com, dec, inc, logic, neg, product, sbiw, shift, sub};
use std::alloc::{AllocError, Global};
use std::io;

/// A byte as a number of two's complement.
fn signed(a: u8) -> i32
    ensures low { pos 0 ≤ℤ (result +ℤ pos 128) }
    ensures high { result ≤ℤ pos 255 }
{
    if a < 128 { a as i32 } else { a as i32 - 256 }
}

/// H, S, V, N, Z and C as the bits of SREG.
fn flag_byte(f: Flags) -> u8 {
    (f.c as u8)
        | (f.z as u8) << 1
        | (f.n as u8) << 2
        | (f.v as u8) << 3
        | (f.s as u8) << 4
        | (f.h as u8) << 5
}

/// The flags of an exact result: S is its sign, V whether it is no signed byte.
fn flags(r: u8, exact: i32, half: bool, carry: bool) -> u8 {
    flag_byte(Flags {
        h: half,
        s: exact < 0,
        v: exact < -128 || exact > 127,
        n: r > 127,
        z: r == 0,
        c: carry,
    })
}

fn expected_sum(a: u8, b: u8, c: u8) -> (u8, u8)
    requires { c < 2 }
{
    let sum = a as u16 + b as u16 + c as u16;
    let r = (sum % 256) as u8;
    let half = a % 16 + b % 16 + c > 15;
    (
        r,
        flags(r, signed(a) + signed(b) + c as i32, half, sum > 255),
    )
}

fn expected_difference(a: u8, b: u8, c: u8) -> (u8, u8)
    requires { c < 2 }
{
    let r = ((256 + a as u16 - b as u16 + 256 - c as u16) % 256) as u8;
    let half = a % 16 < b % 16 + c;
    let borrow = (a as u16) < b as u16 + c as u16;
    (r, flags(r, signed(a) - signed(b) - c as i32, half, borrow))
}

/// ADD, ADC, SUB and SBC on all operands.
pub fn sums_and_differences(rt: &HostRuntime) -> io::Result<()> {
    for a in 0..=255_u8 {
        for b in 0..=255_u8 {
            try_operands(rt, a, b, 0)?;
            try_operands(rt, a, b, 1)?;
        }
    }
    println!(rt; "sums and differences of all operands")
}

fn try_operands(rt: &HostRuntime, a: u8, b: u8, c: u8) -> io::Result<()>
    requires { c < 2 }
{
    if !is_sum(a, b, c) {
        println!(rt; "another sum of {a}, {b} and {c}")?;
    }
    if !is_difference(a, b, c) {
        println!(rt; "another difference of {a}, {b} and {c}")?;
    }
    Ok(())
}

fn is_sum(a: u8, b: u8, c: u8) -> bool
    requires { c < 2 }
{
    let (sum, f) = add(a, b, c == 1);
    (sum, flag_byte(f)) == expected_sum(a, b, c)
}

fn is_difference(a: u8, b: u8, c: u8) -> bool
    requires { c < 2 }
{
    let (rest, f) = sub(a, b, c == 1);
    (rest, flag_byte(f)) == expected_difference(a, b, c)
}

/// What a row comes out with otherwise. A row is a call, `=`, its value and its flags as the bits of SREG.
pub fn arithmetic_difference(alloc: Global, line: &str) -> Option<&'static str> {
    match line.split_once(" = ") {
        Some((call, answer)) => match made(alloc, call) {
            Ok(Some((value, f))) => difference(answer, value, flag_byte(f)),
            Ok(None) => Some("other words"),
            Err(AllocError) => Some("less memory"),
        },
        None => Some("other words"),
    }
}

fn difference(answer: &str, value: u16, flags: u8) -> Option<&'static str> {
    match answer.split_once(' ') {
        Some((wanted, _)) if word(wanted) != Some(value) => Some("another value"),
        Some((_, wanted)) if byte(wanted) != Some(flags) => Some("other flags"),
        Some(_) => None,
        None => Some("other words"),
    }
}

fn made(alloc: Global, call: &str) -> Result<Option<(u16, Flags)>, AllocError> {
    let words: Vec<&str> = call.split_whitespace().collect(alloc)?;
    Ok(match words.as_slice() {
        [name, a] => made_of_byte(name, a),
        ["shift", a, top] => made_by_shift(a, top),
        ["product", a, b] => made_by_product(a, b, false),
        ["fraction", a, b] => made_by_product(a, b, true),
        [name, a, k] => made_of_word(name, a, k),
        _ => None,
    })
}

fn made_of_byte(name: &str, a: &str) -> Option<(u16, Flags)> {
    let a = byte(a)?;
    let (r, f) = match name {
        "logic" => (a, logic(a)),
        "neg" => neg(a),
        "com" => com(a),
        "inc" => inc(a),
        "dec" => dec(a),
        _ => return None,
    };
    Some((r as u16, f))
}

fn made_by_shift(a: &str, top: &str) -> Option<(u16, Flags)> {
    let (r, f) = shift(byte(a)?, top == "1");
    Some((r as u16, f))
}

fn made_of_word(name: &str, a: &str, k: &str) -> Option<(u16, Flags)> {
    let (a, k) = (word(a)?, byte(k)?);
    match name {
        "adiw" => Some(adiw(a, k)),
        "sbiw" => Some(sbiw(a, k)),
        _ => None,
    }
}

/// Factors are decimal, from -128 to 255.
fn made_by_product(a: &str, b: &str, fraction: bool) -> Option<(u16, Flags)> {
    let (a, b) = (a.parse::<i16>().ok()?, b.parse::<i16>().ok()?);
    if a < -128 || a > 255 || b < -128 || b > 255 {
        return None;
    }
    Some(product(a, b, fraction))
}
