//! A line as text.
ghost use Rattle.std.specs.Prelude.{◌≡◌, ◌+◌, ◌*◌, ◌<◌, ◌≤◌, ◌++◌, [], ◌∷◌, length, codes};
ghost use Rattle.std.specs.List.{flat_map};
ghost use Rattle.std.specs.Option.{option_map};
ghost use Rattle.std.specs.Fmt.{decimal};
ghost use Rattle.avr_omit.specs.Names.{name_of};
ghost use Rattle.sim_report.specs.Lines.{hex_digit, hex_byte, hex_word, after_0x, lit_word, spaced, mode_words, subject, id_of, words_of};

use crate::row::{ReportRow, UnoMode};
use arrayvec::ArrayVec;
use avr_omit::{Asked, Omission};
use sim_base::Name;

/// The end of a line that is built. None is longer than 320 bytes.
pub(crate) type Line = ArrayVec<u8, 320>;

fn add(line: &mut Line, bytes: &[u8])
    requires { length line.old.items + length bytes.now ≤ 320 }
    ensures { line.new.items ≡ line.old.items ++ bytes.now }
{
    match line.try_extend_from_slice(bytes) {
        Ok(()) => {}
        Err(_) => unreachable!(),
    }
}

fn word(line: &mut Line, word: &[u8])
    requires { length line.old.items + length word.now < 320 }
    ensures text { line.new.items ≡ line.old.items ++ 32 ∷ word.now }
    ensures short { length line.new.items ≡ length line.old.items + length word.now + 1 }
{
    add(line, b" ");
    add(line, word);
}

fn number(line: &mut Line, n: u64)
    requires { length line.old.items ≤ 150 }
    ensures text { line.new.items ≡ line.old.items ++ 32 ∷ decimal n }
    ensures short { length line.new.items ≤ length line.old.items + 41 }
{
    let mut digits = itoa::Buffer::new();
    word(line, digits.format(n).as_bytes());
}

fn hex_digit(d: u8) -> u8
    requires { d < 16 }
    ensures { result ≡ hex_digit d }
{
    if d < 10 { b'0' + d } else { b'A' + (d - 10) }
}

fn byte_digits(b: u8) -> [u8; 2]
    ensures { result ≡ hex_byte b }
{
    [hex_digit(b / 16), hex_digit(b % 16)]
}

fn byte(line: &mut Line, b: u8)
    requires { length line.old.items ≤ 150 }
    ensures text { line.new.items ≡ line.old.items ++ 32 ∷ hex_byte b }
    ensures short { length line.new.items ≡ length line.old.items + 3 }
{
    word(line, &byte_digits(b));
}

fn address(line: &mut Line, w: u16)
    requires { length line.old.items ≤ 150 }
    ensures text { line.new.items ≡ line.old.items ++ 32 ∷ after_0x (hex_word w) }
    ensures short { length line.new.items ≡ length line.old.items + 7 }
{
    let [high, low] = w.to_be_bytes();
    add(line, b" 0x");
    add(line, &byte_digits(high));
    add(line, &byte_digits(low));
}

fn mode(line: &mut Line, mode: UnoMode)
    requires { length line.old.items ≤ 50 }
    ensures text { line.new.items ≡ line.old.items ++ spaced (mode_words mode) }
    ensures short { length line.new.items ≤ 100 }
{
    match mode {
        UnoMode::Run => word(line, b"run"),
        UnoMode::Sleep => word(line, b"sleep"),
        UnoMode::Halt(code) => {
            word(line, b"halt");
            address(line, code);
        }
    }
}

fn uno(pc: u16, how: UnoMode) -> Line
    ensures text { result.items ≡ spaced (codes "pc" ∷ after_0x (hex_word pc) ∷ mode_words how) }
    ensures short { length result.items ≤ 100 }
{
    let mut line = Line::new();
    word(&mut line, b"pc");
    address(&mut line, pc);
    mode(&mut line, how);
    line
}

fn ignored(register: u8) -> Line
    ensures text { result.items ≡ spaced (codes "ignored" ∷ after_0x (hex_byte register) ∷ []) }
    ensures short { length result.items ≤ 100 }
{
    let mut line = Line::new();
    word(&mut line, b"ignored");
    add(&mut line, b" 0x");
    add(&mut line, &byte_digits(register));
    line
}

fn register(line: &mut Line, b: u8)
    requires { length line.old.items ≤ 150 }
    ensures text { line.new.items ≡ line.old.items ++ 32 ∷ after_0x (hex_byte b) }
    ensures short { length line.new.items ≡ length line.old.items + 5 }
{
    add(line, b" 0x");
    add(line, &byte_digits(b));
}

fn omits(omission: Omission, asked: Asked) -> Line
    ensures text { result.items ≡ spaced (codes "omits" ∷ name_of omission ∷ codes "at" ∷ decimal asked.cycle ∷ after_0x (hex_byte asked.address) ∷ after_0x (hex_byte asked.value) ∷ []) }
    ensures short { length result.items ≤ 100 }
{
    let mut line = Line::new();
    word(&mut line, b"omits");
    word(&mut line, omission.name().as_bytes());
    word(&mut line, b"at");
    number(&mut line, asked.cycle);
    register(&mut line, asked.address);
    register(&mut line, asked.value);
    line
}

fn led(lit: bool, count: u64) -> Line
    ensures text { result.items ≡ spaced (lit_word lit ∷ codes "lit" ∷ decimal count ∷ []) }
    ensures short { length result.items ≤ 100 }
{
    let mut line = Line::new();
    if lit {
        word(&mut line, b"on");
    } else {
        word(&mut line, b"off");
    }
    word(&mut line, b"lit");
    number(&mut line, count);
    line
}

fn count(n: u64) -> Line
    ensures text { result.items ≡ spaced (decimal n ∷ []) }
    ensures short { length result.items ≤ 100 }
{
    let mut line = Line::new();
    number(&mut line, n);
    line
}

fn shift(stages: u8, latch: u8) -> Line
    ensures text { result.items ≡ spaced (hex_byte stages ∷ hex_byte latch ∷ []) }
    ensures short { length result.items ≤ 100 }
{
    let mut line = Line::new();
    byte(&mut line, stages);
    byte(&mut line, latch);
    line
}

fn seg(segments: u8) -> Line
    ensures text { result.items ≡ spaced (hex_byte segments ∷ []) }
    ensures short { length result.items ≤ 100 }
{
    let mut line = Line::new();
    byte(&mut line, segments);
    line
}

fn lcd(n: u8, text: &[u8; 16]) -> Line
    ensures text { result.items ≡ spaced (decimal n ∷ (codes "|" ++ text.now ++ codes "|") ∷ []) }
    ensures short { length result.items ≤ 100 }
{
    let mut line = Line::new();
    number(&mut line, u64::from(n));
    add(&mut line, b" |");
    add(&mut line, text);
    add(&mut line, b"|");
    line
}

// Two digits for each byte.
fn digits(line: &mut Line, bytes: &[u8])
    requires { length line.old.items + 2 * length bytes.now ≤ 320 }
    ensures text { line.new.items ≡ line.old.items ++ flat_map hex_byte bytes.now }
    ensures short { length line.new.items ≡ length line.old.items + 2 * length bytes.now }
{
    for b in bytes {
        add(line, &byte_digits(*b));
    }
}

fn oled(on: bool) -> Line
    ensures text { result.items ≡ spaced (lit_word on ∷ []) }
    ensures short { length result.items ≤ 100 }
{
    let mut line = Line::new();
    if on {
        word(&mut line, b"on");
    } else {
        word(&mut line, b"off");
    }
    line
}

fn oled_page(page: u8, cells: &[u8; 128]) -> Line
    ensures text { result.items ≡ spaced (codes "page" ∷ decimal page ∷ flat_map hex_byte cells.now ∷ []) }
    ensures short { length result.items ≤ 310 }
{
    let mut line = Line::new();
    word(&mut line, b"page");
    number(&mut line, u64::from(page));
    add(&mut line, b" ");
    digits(&mut line, cells);
    line
}

fn alive() -> Line
    ensures text { result.items ≡ spaced (codes "alive" ∷ []) }
    ensures short { length result.items ≤ 100 }
{
    let mut line = Line::new();
    word(&mut line, b"alive");
    line
}

fn trap(k: u8, cycle: u64) -> Line
    ensures text { result.items ≡ spaced (codes "trap" ∷ decimal k ∷ codes "at" ∷ decimal cycle ∷ []) }
    ensures short { length result.items ≤ 100 }
{
    let mut line = Line::new();
    word(&mut line, b"trap");
    number(&mut line, u64::from(k));
    word(&mut line, b"at");
    number(&mut line, cycle);
    line
}

/// What the line of a row is about.
pub(crate) fn subject(row: &ReportRow) -> &'static [u8]
    ensures { result.now ≡ subject row.now }
{
    match row {
        ReportRow::Cycles(_) => b"cycles",
        ReportRow::Uno(_, _, _) | ReportRow::Ignored(_, _) | ReportRow::Omits(_, _, _) => b"uno",
        ReportRow::Led(_, _, _) => b"led",
        ReportRow::Input(_, _) => b"input",
        ReportRow::Seg(_, _) => b"seg",
        ReportRow::Shift(_, _, _) => b"shift",
        ReportRow::Lcd(_, _, _) => b"lcd",
        ReportRow::Oled(_, _) | ReportRow::OledPage(_, _, _) => b"oled",
        ReportRow::Alive(_) | ReportRow::Trap(_, _, _) => b"chip",
    }
}

/// The part that it is about; None where it is about none.
pub(crate) fn id(row: &ReportRow) -> Option<&Name>
    ensures { option_map (λ id. id.now) result ≡ id_of row.now }
{
    match row {
        ReportRow::Cycles(_) => None,
        ReportRow::Uno(id, _, _)
        | ReportRow::Ignored(id, _)
        | ReportRow::Omits(id, _, _)
        | ReportRow::Led(id, _, _)
        | ReportRow::Input(id, _)
        | ReportRow::Seg(id, _)
        | ReportRow::Shift(id, _, _)
        | ReportRow::Lcd(id, _, _)
        | ReportRow::Oled(id, _)
        | ReportRow::OledPage(id, _, _)
        | ReportRow::Alive(id)
        | ReportRow::Trap(id, _, _) => Some(id),
    }
}

/// What it says, with the LF at its end.
pub(crate) fn rest(row: &ReportRow) -> Line
    ensures { result.items ≡ spaced (words_of row.now) ++ 10 ∷ [] }
{
    let mut line = match row {
        ReportRow::Cycles(n) => count(*n),
        ReportRow::Uno(_, pc, mode) => uno(*pc, *mode),
        ReportRow::Ignored(_, register) => ignored(*register),
        ReportRow::Omits(_, omission, asked) => omits(*omission, *asked),
        ReportRow::Led(_, lit, count) => led(*lit, *count),
        ReportRow::Input(_, value) => count(u64::from(*value)),
        ReportRow::Seg(_, segments) => seg(*segments),
        ReportRow::Shift(_, stages, latch) => shift(*stages, *latch),
        ReportRow::Lcd(_, line, text) => lcd(*line, text),
        ReportRow::Oled(_, on) => oled(*on),
        ReportRow::OledPage(_, page, cells) => oled_page(*page, cells),
        ReportRow::Alive(_) => alive(),
        ReportRow::Trap(_, k, cycle) => trap(*k, *cycle),
    };
    line.push(b'\n');
    line
}
