//! Modules that were cut.
use crate::answer::{Answer, answer_to};
use sim_base::{Place, Refusal};
use sim_refusals::refusal_name;
use std::alloc::Global;
use std::io;

/// The answer to the first bytes of a module.
#[derive(Clone, Copy, Debug, PartialEq, Eq)]
enum Cut {
    /// Refused by a rule at the byte at which the module was cut.
    AtTheCut(u8),
    Other(Answer),
}

fn answer_to_cut(alloc: Global, bytes: &[u8]) -> Cut {
    match answer_to(alloc, bytes) {
        Answer::Refused(
            Refusal {
                number,
                place: Place::Byte(at),
            },
        ) if at as usize == bytes.len() => Cut::AtTheCut(number),
        other => Cut::Other(other),
    }
}

/// A line for counts of bytes one behind the other with one answer.
fn print_run(rt: &impl Print, name: &str, first: usize, last: usize, cut: Cut) -> io::Result<()> {
    print!(rt; "{name} cut after {first}")?;
    if first < last {
        print!(rt; " to {last}")?;
    }
    match cut {
        Cut::AtTheCut(number) => println!(rt;
            ": refused {number} {} at the cut",
            refusal_name(number)
        ),
        Cut::Other(answer) => println!(rt; ": {answer}"),
    }
}

/// The answers to the first bytes, for each count of them.
pub fn cuts<R: Print + AllocGlobal>(rt: &R, name: &str, bytes: &[u8]) -> io::Result<()> {
    let mut first = 0;
    let mut before = answer_to_cut(rt.alloc(), &[]);
    for k in 1..=bytes.len() {
        let now = answer_to_cut(rt.alloc(), &bytes[..k]);
        if now != before {
            print_run(rt, name, first, k - 1, before)?;
            first = k;
            before = now;
        }
    }
    print_run(rt, name, first, bytes.len(), before)
}
