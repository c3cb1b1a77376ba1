//! A chip as a part of a board.
ghost use Rattle.std.specs.Prelude.{◌≡◌, ◌≤◌, ◌*◌, Ok, IfOk, IfSome, length};
ghost use Rattle.std.specs.Option.{option_map};
ghost use Rattle.chip_output.specs.Output.{picture};
ghost use Rattle.chip_abi.specs.Imports.{imports_of};
ghost use Rattle.chip_host.specs.Chip.{IsOver, start_state};

use crate::death::Death;
use crate::room::filled;
use crate::shown::{show, turn};
use crate::turns::Turns;
use chip_abi::ImportMap;
use part_law::{Part, Span};
use sim_base::{Display, Drive, Level, List, Name, OutOfMemory, Text};
use std::alloc::Global;
use std::marker::Model;
use wasm_validate::Valid;

/// A chip, before the step of its cycle.
#[derive(Drop)]
pub struct Chip {
    turns: Turns,
    // What each pin drives, which is found anew behind a wake in which something was done.
    shown: Vec<Drive>,
    moved: Span,
}

impl Model for Chip {
    ghost use Rattle.std.specs.Prelude.{◌≡◌, ◌≤◌, length};
    ghost use Rattle.chip_host.specs.Chip.{OnBoard};
    ghost use Rattle.chip_host.specs.Shown.{Shows};

    ghost Value = { OnBoard };

    ghost view = { λ p. record { chip = p.turns.chip; cycle = p.turns.cycle; wakes = p.turns.wakes; moved = p.moved } };

    ghost invariant = { λ p. record {
      shown : Shows p.turns.chip p.shown.items;
      room : length p.shown.items ≡ length p.turns.chip.given.names;
      few : length p.shown.items ≤ 64;
    } };
}

impl Chip {
    /// A chip at cycle 0, behind the start function and `chipInit`, each with the full budget; its pins by their positions,
    /// the attributes that the diagram gives it, and the size of its display, if it has one. It takes all memory that its
    /// calls use.
    pub fn new(
        alloc: Global,
        valid: Valid,
        map: ImportMap,
        pins: List<Option<Name>>,
        attrs: List<(Text, Text)>,
        budget: u32,
        display: Option<Display>,
    ) -> Result<Chip, OutOfMemory>
        requires few { length pins ≤ 64 }
        requires map { imports_of valid.wasm ≡ Ok map }
        ensures state { IfOk result (λ p. p.chip ≡ start_state valid.wasm valid.init (record { table = map; names = pins; attrs = attrs; display = display }) budget) }
        ensures cycle { IfOk result (λ p. p.cycle ≡ 0) }
        ensures wakes { IfOk result (λ p. p.wakes ≡ 0) }
    {
        let count = pins.len();
        let turns = Turns::new(alloc, valid, map, pins, attrs, budget, display)?;
        match filled(alloc, Drive::Z, count) {
            Ok(mut shown) => {
                let moved = show(&turns, &mut shown, Span::all());
                Ok(Chip {
                    turns,
                    shown,
                    moved,
                })
            }
            Err(e) => {
                drop(turns);
                Err(e)
            }
        }
    }

    /// The cycle whose step comes next.
    pub fn cycle(&self) -> u64
        ensures { result ≡ self.now.cycle }
    {
        self.turns.cycle()
    }

    /// The trap that ended it, and its cycle; none while it lives.
    #[tactic(auto, using(crate::specs::ChipLaws::over_if))]
    pub fn trap(&self) -> Option<Death>
        ensures value { result ≡ self.now.chip.dead }
        ensures over { IfSome result (λ d. IsOver self.now.chip) }
    {
        self.turns.trap()
    }

    /// The first 65,536 bytes that it printed.
    pub fn console(&self) -> &[u8]
        ensures { result.now ≡ self.now.chip.inventory.output.console }
    {
        self.turns.console()
    }

    /// Width, height and pixels of its display, 4 bytes for each pixel, row by row; None exactly where it has none.
    pub fn frame(&self) -> Option<(u32, u32, &[u8])>
        ensures picture { option_map (λ f. (f.0, (f.1, f.2.now))) result ≡ option_map picture self.now.chip.inventory.output.frame }
        ensures size { IfSome result (λ f. length f.2.now ≡ 4 * (f.0 * f.1)) }
    {
        self.turns.frame()
    }
}

impl Part for Chip {
    ghost use Rattle.std.specs.Prelude.{true, nat_lt};
    ghost use Rattle.part_law.specs.Spans.{is_in};
    ghost use Rattle.chip_host.specs.Chip.{Chip as State, chip};
    ghost use Rattle.chip_host.specs.ChipLaws.{chip_laws};

    ghost State = { State };

    ghost machine = { chip };

    ghost state = { λ p. p.chip };

    ghost now = { λ p. p.cycle };

    ghost wakes = { λ p. p.wakes };

    ghost changes = { λ p. nat_lt p.moved.from p.moved.to };

    ghost moves = { λ p pin. is_in p.moved pin };

    #[tactic(auto, using(crate::specs::ChipLaws::drive_count))]
    fn pins(&self) -> u8 {
        self.shown.len() as u8
    }

    fn contacts(&self) -> u8 {
        0
    }

    fn drive(&self, pin: u8) -> Drive {
        self.shown[pin as usize]
    }

    fn contact(&self, _i: u8) -> bool {
        false
    }

    fn due(&self) -> Option<u64> {
        self.turns.next_due()
    }

    fn woken(&self) -> u64 {
        self.turns.woken()
    }

    fn changed(&self) -> bool {
        self.moved.has_any()
    }

    #[tactic(auto, using(part_law::proofs::SpanLemmas::in_span))]
    fn moved(&self) -> Span {
        self.moved
    }

    fn settle(&mut self, to: u64) {
        self.turns.pass_to(to);
    }

    fn wake(&mut self, levels: &[Level], _input: Option<u16>) -> Option<u8> {
        self.turns.see(levels);
        self.moved = turn(&mut self.turns, &mut self.shown);
        None
    }

    fn wake_held(&mut self, _input: Option<u16>) -> Option<u8> {
        self.turns.keep_levels();
        self.moved = turn(&mut self.turns, &mut self.shown);
        None
    }

    ghost laws = { chip_laws };
}
