//! Rows of the lines with which a live board answers.
use crate::answer::Answer;
use crate::base::split;
use crate::row::str_of;
use live_text::{Line, no_line, ok_line};

/// The line, whose line feed is shown as `;`.
pub fn tell_line(made: &mut Answer, line: &Line) {
    let mut pieces = str_of(line.as_slice()).split('\n');
    if let Some(piece) = pieces.next() {
        made.tell(piece);
    }
    for piece in pieces {
        made.tell_all(&[";", piece]);
    }
}

/// - `ok CYCLE COUNT WORDS`: the line of an answer with these words
/// - `no CYCLE NUMBER`: the line of an answer that refuses
/// - `byte NUMBER`, `word NUMBER`: in hexadecimal digits
pub fn line_answer(made: &mut Answer, text: &[u8]) {
    let (word, rest) = split(text);
    let (first, rest) = split(rest);
    let (second, words) = split(rest);
    match str_of(word) {
        "ok" => tell_ok(made, number(first), number(second), words),
        "no" => tell_line(made, &no_line(number(first), small_number(second))),
        "byte" => tell_byte(made, small_number(first)),
        "word" => tell_word(made, str_of(first).parse::<u16>().unwrap_or(0)),
        _ => made.tell("none"),
    }
}

fn number(text: &[u8]) -> u64 {
    str_of(text).parse::<u64>().unwrap_or(0)
}

fn small_number(text: &[u8]) -> u8 {
    str_of(text).parse::<u8>().unwrap_or(0)
}

fn tell_ok(made: &mut Answer, cycle: u64, count: u64, words: &[u8]) {
    if words.len() <= 160 {
        tell_line(made, &ok_line(cycle, count, words));
    }
}

fn tell_byte(made: &mut Answer, n: u8) {
    let mut line = Line::new();
    line.push_byte(n);
    tell_line(made, &line);
}

fn tell_word(made: &mut Answer, n: u16) {
    let mut line = Line::new();
    line.push_word(n);
    tell_line(made, &line);
}
