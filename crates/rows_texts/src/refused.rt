//! The answer of a reader that refuses its text.
use crate::answer::Answer;
use sim_base::{Fault, Place, Refusal};
use sim_refusals::refusal_name;

/// Says what is refused, and where.
pub fn refused(made: &mut Answer, fault: &Fault) {
    match fault {
        Fault::Refused(refusal) => tell_refusal(made, *refusal),
        Fault::OutOfMemory => made.run_out(),
    }
}

fn tell_refusal(made: &mut Answer, refusal: Refusal) {
    made.tell_number("refused ", u64::from(refusal.number));
    made.tell_all(&[" ", refusal_name(refusal.number)]);
    tell_place(made, refusal.place);
}

fn tell_place(made: &mut Answer, place: Place) {
    match place {
        Place::Line(n) => made.tell_number(" line ", u64::from(n)),
        Place::Part(n) => made.tell_number(" part ", u64::from(n)),
        Place::Connection(n) => made.tell_number(" connection ", u64::from(n)),
        Place::Chip(n) => made.tell_number(" chip ", u64::from(n)),
        _ => {}
    }
}
