//! How an answer is said.
ghost use Rattle.std.specs.Prelude.{◌≡◌, ◌≤◌, ◌++◌, length};
ghost use Rattle.live_text.specs.Answer.{ok_text, no_text, block_text};
ghost use Rattle.live_leg.specs.Talks.{MayTalk};
ghost use Rattle.live_talk.specs.Says.{Says};

use live_leg::{Talk, say, say_sent};
use live_text::{no_line, ok_line};
use part_law::Part;
use sim_base::{Bench, WriteEnd};
use std::snapshot::Snapshot;

/// Writes a text on Serial.
pub fn tell<P: Part, B: Bench>(
    talk: &mut Talk<P>,
    text: &[u8],
    bench: &mut B,
    start: &Snapshot<B>,
) -> WriteEnd
    requires { MayTalk P.Part talk.old (B.outside start.now.value) (B.outside bench.old) }
    ensures says { Says P.Part text.now result talk.old talk.new (B.outside start.now.value) (B.outside bench.old) (B.outside bench.new) }
    ensures requests { (B.outside bench.new).requests ≡ (B.outside bench.old).requests }
{
    say(talk, text, bench, start)
}

/// Writes the bytes of the leg on Serial.
fn tell_sent<P: Part, B: Bench>(talk: &mut Talk<P>, bench: &mut B, start: &Snapshot<B>) -> WriteEnd
    requires { MayTalk P.Part talk.old (B.outside start.now.value) (B.outside bench.old) }
    ensures says { Says P.Part talk.old.sent.bytes result talk.old talk.new (B.outside start.now.value) (B.outside bench.old) (B.outside bench.new) }
    ensures requests { (B.outside bench.new).requests ≡ (B.outside bench.old).requests }
{
    say_sent(talk, bench, start)
}

/// Says a block, if it is not empty, and a line feed after it.
fn say_block<P: Part, B: Bench>(
    talk: &mut Talk<P>,
    block: &[u8],
    bench: &mut B,
    start: &Snapshot<B>,
) -> WriteEnd
    requires { MayTalk P.Part talk.old (B.outside start.now.value) (B.outside bench.old) }
    ensures says { Says P.Part (block_text block.now) result talk.old talk.new (B.outside start.now.value) (B.outside bench.old) (B.outside bench.new) }
    ensures requests { (B.outside bench.new).requests ≡ (B.outside bench.old).requests }
{
    if block.is_empty() {
        return WriteEnd::Ok;
    }
    match tell(talk, block, bench, start) {
        WriteEnd::Ok => tell(talk, b"\n", bench, start),
        WriteEnd::Failed => WriteEnd::Failed,
    }
}

/// Says an answer with these words, at most 160 bytes of them, and a block.
pub fn say_answer<P: Part, B: Bench>(
    talk: &mut Talk<P>,
    words: &[u8],
    block: &[u8],
    bench: &mut B,
    start: &Snapshot<B>,
) -> WriteEnd
    requires short { length words.now ≤ 160 }
    requires talks { MayTalk P.Part talk.old (B.outside start.now.value) (B.outside bench.old) }
    ensures says { Says P.Part (ok_text talk.old.live.cycle (length block.now) words.now ++ block_text block.now) result talk.old talk.new
        (B.outside start.now.value) (B.outside bench.old) (B.outside bench.new) }
    ensures requests { (B.outside bench.new).requests ≡ (B.outside bench.old).requests }
{
    let line = ok_line(talk.live.cycle(), block.len() as u64, words);
    match tell(talk, line.as_slice(), bench, start) {
        WriteEnd::Ok => say_block(talk, block, bench, start),
        WriteEnd::Failed => WriteEnd::Failed,
    }
}

/// Says the bytes of the leg as a block.
fn say_sent_block<P: Part, B: Bench>(
    talk: &mut Talk<P>,
    bench: &mut B,
    start: &Snapshot<B>,
) -> WriteEnd
    requires { MayTalk P.Part talk.old (B.outside start.now.value) (B.outside bench.old) }
    ensures says { Says P.Part (block_text talk.old.sent.bytes) result talk.old talk.new
        (B.outside start.now.value) (B.outside bench.old) (B.outside bench.new) }
    ensures requests { (B.outside bench.new).requests ≡ (B.outside bench.old).requests }
{
    if talk.sent.bytes().is_empty() {
        return WriteEnd::Ok;
    }
    match tell_sent(talk, bench, start) {
        WriteEnd::Ok => tell(talk, b"\n", bench, start),
        WriteEnd::Failed => WriteEnd::Failed,
    }
}

/// Says an answer with these words, at most 160 bytes of them, whose block is what was sent in the leg.
pub fn say_leg<P: Part, B: Bench>(
    talk: &mut Talk<P>,
    words: &[u8],
    bench: &mut B,
    start: &Snapshot<B>,
) -> WriteEnd
    requires short { length words.now ≤ 160 }
    requires talks { MayTalk P.Part talk.old (B.outside start.now.value) (B.outside bench.old) }
    ensures says { Says P.Part (ok_text talk.old.live.cycle (length talk.old.sent.bytes) words.now ++ block_text talk.old.sent.bytes) result talk.old talk.new
        (B.outside start.now.value) (B.outside bench.old) (B.outside bench.new) }
    ensures requests { (B.outside bench.new).requests ≡ (B.outside bench.old).requests }
{
    let line = ok_line(talk.live.cycle(), talk.sent.bytes().len() as u64, words);
    match tell(talk, line.as_slice(), bench, start) {
        WriteEnd::Ok => say_sent_block(talk, bench, start),
        WriteEnd::Failed => WriteEnd::Failed,
    }
}

/// Says that a request is refused.
pub fn say_no<P: Part, B: Bench>(
    talk: &mut Talk<P>,
    number: u8,
    bench: &mut B,
    start: &Snapshot<B>,
) -> WriteEnd
    requires { MayTalk P.Part talk.old (B.outside start.now.value) (B.outside bench.old) }
    ensures says { Says P.Part (no_text talk.old.live.cycle number) result talk.old talk.new
        (B.outside start.now.value) (B.outside bench.old) (B.outside bench.new) }
    ensures requests { (B.outside bench.new).requests ≡ (B.outside bench.old).requests }
{
    let line = no_line(talk.live.cycle(), number);
    tell(talk, line.as_slice(), bench, start)
}
