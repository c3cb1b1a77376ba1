//! Rows of diagrams: the parts with their attributes, and the wires with the numbers of their connections.
use crate::answer::Answer;
use crate::refused::refused;
use diagram_json::{Diagram, PartText, Wire, read_diagram};
use sim_base::Text;
use std::alloc::Global;

pub fn diagram_answer(alloc: Global, made: &mut Answer, text: &[u8]) {
    match read_diagram(alloc, text) {
        Ok(diagram) => answer_for(made, &diagram),
        Err(fault) => refused(made, &fault),
    }
}

fn answer_for(made: &mut Answer, diagram: &Diagram) {
    tell_parts(made, diagram.parts.as_slice());
    tell_wires(made, diagram.wires.as_slice());
}

fn tell_parts(made: &mut Answer, parts: &[PartText]) {
    for part in parts {
        tell_part(made, part);
    }
}

fn tell_wires(made: &mut Answer, wires: &[Wire]) {
    for wire in wires {
        tell_wire(made, wire);
    }
}

fn tell_part(made: &mut Answer, part: &PartText) {
    made.separate("; ");
    made.tell_all(&["part ", part.id.as_str(), " ", part.kind.as_str()]);
    tell_attributes(made, part.attrs.as_slice());
}

fn tell_attributes(made: &mut Answer, attrs: &[(Text, Text)]) {
    for attr in attrs {
        made.tell_all(&[" ", attr.0.as_str(), "=", attr.1.as_str()]);
    }
}

fn tell_wire(made: &mut Answer, wire: &Wire) {
    made.separate("; ");
    made.tell_number("wire ", u64::from(wire.number));
    made.tell_all(&[" ", wire.from.0.as_str(), ":", wire.from.1.as_str()]);
    made.tell_all(&[" ", wire.to.0.as_str(), ":", wire.to.1.as_str()]);
}
