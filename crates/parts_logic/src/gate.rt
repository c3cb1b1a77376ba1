//! The gates.
ghost use Rattle.std.specs.Prelude.{◌≡◌};
ghost use Rattle.parts_logic.specs.Gate.{input_count, out_by, gate_of, new_gate};

use part_catalog::Kind;
use part_reactive::{Behaviour, output, reads_at};
use sim_base::{Drive, Level};
use std::marker::Model;

/// What a gate makes of its inputs. NOT and the buffer have one, IN, the others two, A and B.
#[derive(Clone, Copy, Debug, PartialEq, Eq, Drop)]
pub enum GateOp {
    Not,
    Buffer,
    And,
    Or,
    Nand,
    Nor,
    Xor,
    Xnor,
}

impl GateOp {
    /// That of a kind; None where the kind is no gate.
    pub fn of(kind: Kind) -> Option<GateOp>
        ensures { result ≡ gate_of kind }
    {
        match kind {
            Kind::GateNot => Some(GateOp::Not),
            Kind::GateBuffer => Some(GateOp::Buffer),
            Kind::GateAnd2 => Some(GateOp::And),
            Kind::GateOr2 => Some(GateOp::Or),
            Kind::GateNand2 => Some(GateOp::Nand),
            Kind::GateNor2 => Some(GateOp::Nor),
            Kind::GateXor2 => Some(GateOp::Xor),
            Kind::GateXnor2 => Some(GateOp::Xnor),
            _ => None,
        }
    }

    fn inputs(self) -> u8
        ensures { result ≡ input_count self }
    {
        match self {
            GateOp::Not | GateOp::Buffer => 1,
            _ => 2,
        }
    }

    /// OUT, where the first two pins read `a` and `b`: with one input the second pin is OUT itself.
    fn out(self, a: bool, b: bool) -> bool
        ensures { result ≡ out_by self a b }
    {
        match self {
            GateOp::Not => !a,
            GateOp::Buffer => a,
            GateOp::And => a && b,
            GateOp::Or => a || b,
            GateOp::Nand => !(a && b),
            GateOp::Nor => !(a || b),
            GateOp::Xor => a != b,
            GateOp::Xnor => a == b,
        }
    }
}

/// A gate, whose OUT in each cycle is by the levels of the cycle before.
#[derive(Drop)]
pub struct Gate {
    op: GateOp,
    out: bool,
}

impl Model for Gate {
    ghost use Rattle.parts_logic.specs.Gate.{GateState};

    ghost Value = { GateState };

    ghost view = { λ a. record { op = a.op; out = a.out } };
}

impl Gate {
    /// A gate whose OUT is High until its first step.
    pub fn new(op: GateOp) -> Self
        ensures { result ≡ new_gate op }
    {
        Gate { op, out: true }
    }
}

impl Behaviour for Gate {
    ghost use Rattle.parts_logic.specs.Gate.{GateState, gate, gate_laws};

    ghost Own = { GateState };

    ghost reaction = { gate };

    ghost own = { λ a. a };

    fn pins(&self) -> u8 {
        self.op.inputs() + 1
    }

    fn contacts(&self) -> u8 {
        0
    }

    fn drive(&self, pin: u8) -> Drive {
        if pin == self.op.inputs() {
            output(self.out)
        } else {
            Drive::Z
        }
    }

    fn contact(&self, _i: u8) -> bool {
        false
    }

    fn react(&mut self, _before: &[Level], now: &[Level], _input: Option<u16>) -> bool {
        let out = self.op.out(reads_at(now, 0), reads_at(now, 1));
        let changed = out != self.out;
        self.out = out;
        changed
    }

    ghost laws = { gate_laws };
}
