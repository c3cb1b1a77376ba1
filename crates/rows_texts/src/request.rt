//! Rows of requests to a live board, each a line that an environment has: what it asks for, or the line that refuses it
//! in cycle 0.
use crate::answer::Answer;
use crate::line::tell_line;
use crate::row::str_of;
use arrayvec::ArrayVec;
use live_request::{Act, Addresses, Bytes, Condition, Conditions, Request, read_request};
use live_text::no_line;
use sim_base::{Bench, LineEnd, MemBench};
use sim_refusals::numbers::REQUEST_LONG;
use std::alloc::Global;

pub fn request_answer(alloc: Global, made: &mut Answer, text: &[u8]) {
    let mut bench = MemBench::new(alloc);
    if bench.add_request(text).is_err() {
        made.run_out();
        return;
    }
    let mut line = ArrayVec::new();
    match bench.read_line(&mut line) {
        LineEnd::Line => answer_for(made, line.as_slice()),
        LineEnd::TooLong => tell_line(made, &no_line(0, REQUEST_LONG)),
        LineEnd::Over => made.tell("over"),
        LineEnd::Failed => made.tell("failed"),
    }
}

fn answer_for(made: &mut Answer, line: &[u8]) {
    match read_request(line) {
        Ok(request) => tell_request(made, request),
        Err(number) => tell_line(made, &no_line(0, number)),
    }
}

fn tell_request(made: &mut Answer, request: Request<'_>) {
    match request {
        Request::Run(until, conditions) => tell_run(made, until, &conditions),
        Request::Act(act) => tell_act(made, act),
        Request::Level(name) => tell_names(made, "level", name, None),
        Request::Report => made.tell("report"),
        Request::Wave => made.tell("wave"),
        Request::Core => made.tell("core"),
        Request::Data(bytes) => tell_bytes(made, "data", bytes),
        Request::Flash(bytes) => tell_bytes(made, "flash", bytes),
        Request::Eeprom(bytes) => tell_bytes(made, "eeprom", bytes),
        Request::Mark(addresses) => tell_addresses(made, "mark", addresses),
        Request::Unmark(addresses) => tell_addresses(made, "unmark", addresses),
        Request::Count => made.tell("count"),
        Request::Counts => made.tell("counts"),
        Request::Light(anode, cathode) => tell_names(made, "light", anode, cathode),
        Request::Lights => made.tell("lights"),
        Request::Prints => made.tell("prints"),
        Request::Displays => made.tell("displays"),
        Request::Omissions => made.tell("omissions"),
        Request::Quit => made.tell("quit"),
    }
}

fn tell_names(made: &mut Answer, word: &str, name: &[u8], other: Option<&[u8]>) {
    made.tell_all(&[word, " <", str_of(name), ">"]);
    if let Some(other) = other {
        made.tell_all(&[" <", str_of(other), ">"]);
    }
}

/// `press` or `set`, the part, the value, and the cycle if one is named.
fn tell_act(made: &mut Answer, act: Act<'_>) {
    let word = if act.press { "press" } else { "set" };
    tell_names(made, word, act.part, None);
    made.tell_number(" ", act.value);
    if let Some(cycle) = act.cycle {
        made.tell_number(" in ", cycle);
    }
}

fn tell_bytes(made: &mut Answer, word: &str, bytes: Bytes) {
    made.tell(word);
    made.tell_number(" ", u64::from(bytes.from));
    made.tell_number(" ", u64::from(bytes.count));
}

fn tell_addresses(made: &mut Answer, word: &str, addresses: Addresses<'_>) {
    made.tell(word);
    let mut addresses = addresses;
    while let Some(address) = addresses.next_address() {
        made.tell_number(" ", u64::from(address));
    }
}

fn tell_run(made: &mut Answer, until: u64, conditions: &Conditions<'_>) {
    made.tell_number("run ", until);
    for condition in conditions.as_slice() {
        made.tell(", ");
        tell_condition(made, condition);
    }
}

fn tell_condition(made: &mut Answer, condition: &Condition<'_>) {
    match condition {
        Condition::Level(name, value) => {
            tell_names(made, "level", name, None);
            made.tell_all(&[" ", str_of(&[*value])]);
        }
        Condition::Edge(name) => tell_names(made, "edge", name, None),
        Condition::Sent(count) => made.tell_number("sent ", *count),
        Condition::Begins => made.tell("begins"),
        Condition::Marked => made.tell("marked"),
        Condition::Stored(from, count) => {
            made.tell_number("stored ", u64::from(*from));
            made.tell_number(" ", u64::from(*count));
        }
        Condition::Halted => made.tell("halted"),
        Condition::Trapped => made.tell("trapped"),
    }
}
