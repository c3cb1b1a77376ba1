//! The declarations of a head.
ghost use Rattle.std.specs.Prelude.{◌≡◌, ◌<◌, ◌≤◌, ◌+◌, ◌++◌, ◌∷◌, [], length, codes, None, Some, IfSome, IfNone};
ghost use Rattle.std.specs.List.{list_all};
ghost use Rattle.std.specs.Option.{option_map};
ghost use Rattle.text_model.specs.Wave.{id_of};
ghost use Rattle.wave_lines.specs.Reading.{ended_lines, is_printable, line_count};
ghost use Rattle.wave_decode.specs.Head.{declared_line, declared_name, first_name, is_name};

use arrayvec::ArrayVec;
use wave_lines::{is_printable, split_line};

/// How many variables a wave may have.
pub(crate) const MOST_VARIABLES: usize = 8930;

/// A declaration that is built. None is longer than 160 bytes.
type Declaration = ArrayVec<u8, 160>;

fn add(line: &mut Declaration, bytes: &[u8])
    requires { length line.old.items + length bytes.now ≤ 160 }
    ensures { line.new.items ≡ line.old.items ++ bytes.now }
{
    match line.try_extend_from_slice(bytes) {
        Ok(()) => {}
        Err(_) => unreachable!(),
    }
}

/// Adds the identifier code of a variable.
fn add_code(line: &mut Declaration, i: usize)
    requires few { i < 8930 }
    requires room { length line.old.items ≤ 20 }
    ensures text { line.new.items ≡ line.old.items ++ id_of i }
    ensures short { length line.new.items ≤ length line.old.items + 2 }
{
    if i < 94 {
        add(line, &[33 + i as u8]);
    } else {
        let rest = i - 94;
        add(line, &[33 + (rest / 94) as u8, 33 + (rest % 94) as u8]);
    }
}

/// The declaration of a variable, without its LF.
fn declared_line(i: usize, name: &[u8]) -> Declaration
    requires few { i < 8930 }
    requires short { length name.now ≤ 129 }
    ensures { result.items ≡ declared_line i name.now }
{
    let mut line = Declaration::new();
    add(&mut line, b"$var wire 1 ");
    add_code(&mut line, i);
    add(&mut line, b" ");
    add(&mut line, name);
    add(&mut line, b" $end");
    line
}

fn are_printable(name: &[u8]) -> bool
    ensures { result ≡ list_all is_printable name.now }
{
    name.iter().all(|b| is_printable(*b))
}

fn is_name(name: &[u8]) -> bool
    ensures { result ≡ is_name name.now }
{
    if 1 <= name.len() && name.len() <= 129 {
        are_printable(name)
    } else {
        false
    }
}

/// The name that a line declares for a variable.
fn declared_name(i: usize, line: &[u8]) -> Option<&[u8]>
    requires { i < 8930 }
    ensures name { option_map (λ n. n.now) result ≡ declared_name i line.now }
    ensures line { IfSome result (λ n. line.now ≡ declared_line i n.now) }
{
    let start = if i < 94 { 14 } else { 15 };
    if line.len() < start + 5 {
        return None;
    }
    let name = &line[start..line.len() - 5];
    if !is_name(name) {
        return None;
    }
    if line == declared_line(i, name).as_slice() {
        Some(name)
    } else {
        None
    }
}

/// The name that the next line declares for a variable, and what stands after it.
pub(crate) fn next_name(i: usize, rest: &[u8]) -> Option<(&[u8], &[u8])>
    ensures some { IfSome result (λ x. first_name i (ended_lines rest.now) ≡ Some x.0.now) }
    ensures none { IfNone result (first_name i (ended_lines rest.now) ≡ None) }
    ensures ended { IfSome result (λ x. ended_lines rest.now ≡ declared_line i x.0.now ∷ ended_lines x.1.now) }
    ensures whole { IfSome result (λ x. rest.now ≡ declared_line i x.0.now ++ 10 ∷ x.1.now) }
    ensures unbroken { IfSome result (λ x. line_count (declared_line i x.0.now) ≡ 0) }
    ensures shorter { IfSome result (λ x. length x.1.now < length rest.now) }
{
    if i >= MOST_VARIABLES {
        return None;
    }
    match split_line(rest) {
        Some((line, more)) => match declared_name(i, line) {
            Some(name) => Some((name, more)),
            None => None,
        },
        None => None,
    }
}
