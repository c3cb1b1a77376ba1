//! A part or a behaviour of one of two kinds; nested, of one of many.

use part_law::{Part, Span, Went};
use part_reactive::Behaviour;
use sim_base::{Drive, Level, Steps};
use std::sync::ledger::Ledger;

/// A part of one of two kinds, which steps as the machine of its kind does, or a behaviour, which reacts as its kind does.
#[derive(Drop)]
pub enum Either<A, B> {
    Left(A),
    Right(B),
}

macro_rules! on_either {
    ($either:expr, $one:ident => $call:expr) => {
        match $either {
            Either::Left($one) => $call,
            Either::Right($one) => $call,
        }
    };
}

impl<A: Part, B: Part> Part for Either<A, B> {
    ghost use Rattle.std.specs.Prelude.{◌⊎◌};
    ghost use Rattle.part_law.specs.Either.{either, either_laws};
    ghost use Rattle.part_either.specs.EitherPart.{either_state, on_either};

    ghost State = { A.State ⊎ B.State };

    ghost machine = { either A.machine B.machine };

    ghost state = { either_state A.state B.state };

    ghost now = { on_either A.now B.now };

    ghost wakes = { on_either A.wakes B.wakes };

    ghost changes = { on_either A.changes B.changes };

    ghost moves = { on_either A.moves B.moves };

    #[inline(always)]
    fn pins(&self) -> u8 {
        on_either!(self, part => part.pins())
    }

    #[inline(always)]
    fn contacts(&self) -> u8 {
        on_either!(self, part => part.contacts())
    }

    #[inline(always)]
    fn drive(&self, pin: u8) -> Drive {
        on_either!(self, part => part.drive(pin))
    }

    #[inline(always)]
    fn contact(&self, i: u8) -> bool {
        on_either!(self, part => part.contact(i))
    }

    #[inline(always)]
    fn due(&self) -> Option<u64> {
        on_either!(self, part => part.due())
    }

    #[inline(always)]
    fn woken(&self) -> u64 {
        on_either!(self, part => part.woken())
    }

    #[inline(always)]
    fn changed(&self) -> bool {
        on_either!(self, part => part.changed())
    }

    #[inline(always)]
    fn moved(&self) -> Span {
        on_either!(self, part => part.moved())
    }

    #[inline(always)]
    fn settle(&mut self, to: u64) {
        on_either!(self, part => part.settle(to))
    }

    #[inline(always)]
    fn wake(&mut self, levels: &[Level], input: Option<u16>) -> Option<u8> {
        on_either!(self, part => part.wake(levels, input))
    }

    #[inline(always)]
    fn wake_held(&mut self, input: Option<u16>) -> Option<u8> {
        on_either!(self, part => part.wake_held(input))
    }

    #[inline(always)]
    fn hear(&mut self, levels: &[Level], t: u64) -> Option<bool> {
        on_either!(self, part => part.hear(levels, t))
    }

    #[inline(always)]
    fn go_on<L: Ledger>(&mut self, limit: u64, steps: &mut Steps<L>) -> Went {
        on_either!(self, part => part.go_on(limit, steps))
    }

    ghost laws = { either_laws A.machine B.machine A.laws B.laws };
}

impl<A: Behaviour, B: Behaviour> Behaviour for Either<A, B> {
    ghost use Rattle.std.specs.Prelude.{◌⊎◌};
    ghost use Rattle.part_reactive.specs.Either.{either, either_laws};
    ghost use Rattle.part_either.specs.EitherPart.{either_state};

    ghost Own = { A.Own ⊎ B.Own };

    ghost reaction = { either A.reaction B.reaction };

    ghost own = { either_state A.own B.own };

    #[inline(always)]
    fn pins(&self) -> u8 {
        on_either!(self, behaviour => behaviour.pins())
    }

    #[inline(always)]
    fn contacts(&self) -> u8 {
        on_either!(self, behaviour => behaviour.contacts())
    }

    #[inline(always)]
    fn drive(&self, pin: u8) -> Drive {
        on_either!(self, behaviour => behaviour.drive(pin))
    }

    #[inline(always)]
    fn contact(&self, i: u8) -> bool {
        on_either!(self, behaviour => behaviour.contact(i))
    }

    #[inline(always)]
    fn react(&mut self, before: &[Level], now: &[Level], input: Option<u16>) -> bool {
        on_either!(self, behaviour => behaviour.react(before, now, input))
    }

    ghost laws = { either_laws A.reaction B.reaction A.laws B.laws };
}
