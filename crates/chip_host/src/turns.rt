//! A chip that takes its turns.
ghost use Rattle.std.specs.Option.{option_map, option_to_list};
ghost use Rattle.std.specs.Prelude.{◌≡◌, ◌++◌, ◌<◌, ◌≤◌, ◌+◌, ◌*◌, IfSome, List, ℕ, true, false, None, Some, Ok, IfOk, length, slice_get};
ghost use Rattle.chip_abi.specs.Imports.{imports_of};
ghost use Rattle.chip_host.specs.Chip.{called, replied, is_live, timer_turn, watch_turn, watch_turns, takes_byte, takes_answer, byte_in, stored, serves, served, all_served, engine_turn, engines_last, seeing, timers_first, turned, chip_drive, start_state};
ghost use Rattle.chip_host.specs.NextDue.{next_due};
ghost use Rattle.chip_output.specs.Output.{picture};
ghost use Rattle.chip_host.specs.Shown.{DrivesBut, moved_span};
ghost use Rattle.chip_host.specs.Inventory.{engine_at};
ghost use Rattle.chip_engines.specs.Engine.{IsEngine};

use crate::calls::{ask_slot, call_slot, init_of, run_both, start_of};
use crate::death::Death;
use crate::host::ChipHost;
use crate::lists::read_or;
use crate::room::filled;
use crate::span::{all_if, both, out_span, request_span};
use crate::timer::{again, is_at};
use crate::watch::{is_edge, reading};
use chip_abi::ImportMap;
use chip_engines::{Engine, Turn};
use part_law::Span;
use sim_base::{Display, Drive, Level, List, MOST_CYCLES, Name, OutOfMemory, Text};
use slave_request::EngineRequest;
use std::alloc::Global;
use std::marker::Model;
use wasm_exec::Instance;
use wasm_num::Value;
use wasm_validate::Valid;

/// A chip's module with its host, before the step of its cycle.
#[derive(Drop)]
pub(crate) struct Turns {
    instance: Instance,
    host: ChipHost,
    before: Vec<Level>,
    budget: u32,
    wakes: u64,
    dead: Option<Death>,
}

impl Model for Turns {
    ghost use Rattle.std.specs.Prelude.{◌≡◌, ◌≤◌, Some, false, length, map, slice_get};
    ghost use Rattle.chip_host.specs.Hosts.{AreHosts};
    ghost use Rattle.chip_host.specs.Chip.{ChipAt, chip_from};
    ghost use Rattle.sim_base.specs.declared.limits.TheConstants.{MOST_CYCLES};

    ghost Value = { ChipAt };

    ghost view = { λ p. record { chip = chip_from p.instance p.host p.budget p.dead; cycle = p.host.moment.now; wakes = p.wakes; before = p.before.items } };

    ghost invariant = { λ p. record {
      hosts : AreHosts p.host.moment.given.table p.instance.wasm;
      set : p.host.moment.init ≡ false;
      before : length p.before.items ≡ length p.host.moment.given.names;
      levels : length p.host.moment.levels ≡ length p.host.moment.given.names;
      end : p.host.moment.now ≤ MOST_CYCLES;
    } };
}

impl Turns {
    /// A chip at cycle 0, behind the start function and `chipInit`, each with the full budget; its pins by their positions,
    /// and the attributes that the diagram gives it. It takes all memory that its calls use.
    pub(crate) fn new(
        alloc: Global,
        valid: Valid,
        map: ImportMap,
        pins: List<Option<Name>>,
        attrs: List<(Text, Text)>,
        budget: u32,
        display: Option<Display>,
    ) -> Result<Turns, OutOfMemory>
        requires few { length pins ≤ 64 }
        requires map { imports_of valid.wasm ≡ Ok map }
        ensures state { IfOk result (λ p. p.chip ≡ start_state valid.wasm valid.init (record { table = map; names = pins; attrs = attrs; display = display }) budget) }
        ensures cycle { IfOk result (λ p. p.cycle ≡ 0) }
        ensures wakes { IfOk result (λ p. p.wakes ≡ 0) }
    {
        let start = start_of(&valid);
        let init = init_of(&valid);
        let count = pins.len();
        let mut host = match ChipHost::new(alloc, map, pins, attrs, display) {
            Ok(host) => host,
            Err(e) => {
                drop(valid);
                return Err(e);
            }
        };
        let mut instance = match Instance::new(alloc, valid) {
            Ok(instance) => instance,
            Err(e) => {
                drop(host);
                return Err(e);
            }
        };
        let before = match filled(alloc, Level::Z, count) {
            Ok(before) => before,
            Err(e) => {
                drop(host);
                drop(instance);
                return Err(e);
            }
        };
        let dead = run_both(&mut instance, &mut host, budget, start, init);
        host.end_set_up();
        Ok(Turns {
            instance,
            host,
            before,
            budget,
            wakes: 0,
            dead,
        })
    }

    /// The cycle whose step comes next.
    pub(crate) fn cycle(&self) -> u64
        ensures { result ≡ self.now.cycle }
    {
        self.host.cycle()
    }

    /// How often it took its turns.
    pub(crate) fn woken(&self) -> u64
        ensures { result ≡ self.now.wakes }
    {
        self.wakes
    }

    /// The trap that ended it, and its cycle; none while it lives.
    pub(crate) fn trap(&self) -> Option<Death>
        ensures { result ≡ self.now.chip.dead }
    {
        self.dead
    }

    pub(crate) fn console(&self) -> &[u8]
        ensures { result.now ≡ self.now.chip.inventory.output.console }
    {
        self.host.console()
    }

    pub(crate) fn frame(&self) -> Option<(u32, u32, &[u8])>
        ensures picture { option_map (λ f. (f.0, (f.1, f.2.now))) result ≡ option_map picture self.now.chip.inventory.output.frame }
        ensures size { IfSome result (λ f. length f.2.now ≡ 4 * (f.0 * f.1)) }
    {
        self.host.frame()
    }

    fn call(&mut self, slot: u32, args: &[Value])
        requires { is_live self.old.chip ≡ true }
        ensures { self.new ≡ record self.old { chip = called self.old.chip self.old.cycle slot args.now } }
    {
        self.dead = call_slot(&mut self.instance, &mut self.host, self.budget, slot, args);
    }

    /// The turn of a timer, and whether it calls back.
    fn timer_turn(&mut self, id: usize) -> bool
        ensures state { self.new ≡ record self.old { chip = timer_turn self.old.chip self.old.cycle id } }
        ensures rests { result ≡ false → self.new ≡ self.old }
    {
        if self.dead.is_some() {
            return false;
        }
        let cycle = self.host.cycle();
        if let Some(timer) = self.host.timer(id) {
            if is_at(cycle, timer.due) {
                self.host.set_timer(id, again(cycle, timer));
                self.call(timer.callback, &[Value::I32(timer.user)]);
                return true;
            }
        }
        false
    }

    /// The turns of the timers, and whether one of them calls back.
    fn timer_turns(&mut self) -> bool
        ensures state { self.new ≡ record self.old { chip = timers_first self.old.chip self.old.cycle } }
        ensures rests { result ≡ false → self.new ≡ self.old }
    {
        let mut called = false;
        for id in 0..self.host.timer_count() {
            called = called | self.timer_turn(id);
        }
        called
    }

    /// The turn of the watch of a pin, and whether it calls back.
    fn watch_turn(&mut self, i: usize) -> bool
        requires { i < 64 }
        ensures state { self.new ≡ record self.old { chip = watch_turn self.old.chip self.old.cycle self.old.before i } }
        ensures rests { result ≡ false → self.new ≡ self.old }
    {
        if self.dead.is_some() {
            return false;
        }
        if let Some(watch) = self.host.watch(i) {
            let now = reading(self.host.levels(), i);
            if is_edge(watch.edge, reading(self.before.as_slice(), i), now) {
                self.call(
                    watch.callback,
                    &[
                        Value::I32(watch.user),
                        Value::I32(i as u32),
                        Value::I32(u32::from(now)),
                    ],
                );
                return true;
            }
        }
        false
    }

    /// The turns of the watches, and whether one of them calls back.
    fn watch_turns(&mut self) -> bool
        ensures state { self.new ≡ record self.old { chip = watch_turns self.old.chip self.old.cycle self.old.before (length self.old.chip.given.names) } }
        ensures rests { result ≡ false → self.new ≡ self.old }
    {
        if !self.host.has_watches() {
            return false;
        }
        let mut called = false;
        for i in 0..self.host.pin_count() {
            called = called | self.watch_turn(i);
        }
        called
    }

    /// Asks the module.
    fn ask(&mut self, slot: u32, args: &[Value], absent: u32) -> Option<u32>
        requires { is_live self.old.chip ≡ true }
        ensures state { self.new ≡ record self.old { chip = (replied self.old.chip self.old.cycle slot args.now absent).0 } }
        ensures answer { result ≡ (replied self.old.chip self.old.cycle slot args.now absent).1 }
    {
        let (answer, dead) = ask_slot(
            &mut self.instance,
            &mut self.host,
            self.budget,
            slot,
            args,
            absent,
        );
        self.dead = dead;
        answer
    }

    /// Hands an engine the byte that was answered.
    fn take_byte(&mut self, place: usize, answer: Option<u32>)
        requires { place < 24 }
        ensures { self.new ≡ record self.old { chip = takes_byte place self.old.chip answer } }
    {
        if let Some(byte) = answer {
            if let Some(engine) = self.host.engine(place) {
                self.host
                    .set_engine(place, engine.with_byte((byte % 256) as u8));
            }
        }
    }

    /// Hands an engine what was answered.
    fn take_answer(&mut self, place: usize, answer: Option<u32>)
        requires { place < 24 }
        ensures { self.new ≡ record self.old { chip = takes_answer place self.old.chip answer } }
    {
        if let Some(value) = answer {
            if let Some(engine) = self.host.engine(place) {
                self.host.set_engine(place, engine.with_answer(value));
            }
        }
    }

    fn fetch(&self, addr: u32) -> u8
        ensures { result ≡ byte_in self.now.chip.running.memory addr }
    {
        read_or(self.instance.memory().as_slice(), addr as usize, 0)
    }

    fn store(&mut self, addr: u32, byte: u8)
        ensures { self.new ≡ record self.old { chip = stored self.old.chip addr byte } }
    {
        if (addr as usize) < self.instance.memory().as_slice().len() {
            self.instance.store_byte(addr, byte);
        }
    }

    /// Serves a request of the engine at a place.
    fn serve(&mut self, place: usize, engine: Engine, request: EngineRequest)
        requires live { is_live self.old.chip ≡ true }
        requires within { place < 24 }
        requires sound { IsEngine engine }
        ensures { self.new ≡ record self.old { chip = serves self.old.chip self.old.cycle place engine request } }
    {
        let user = Value::I32(engine.user);
        let calls = engine.calls;
        match request {
            EngineRequest::None => {}
            EngineRequest::Fetch(n) => {
                let byte = self.fetch(engine.buffer.wrapping_add(n));
                self.host.set_engine(place, engine.with_byte(byte));
            }
            EngineRequest::Store(n, byte) => self.store(engine.buffer.wrapping_add(n), byte),
            EngineRequest::Received(byte) => {
                self.call(calls.received, &[user, Value::I32(u32::from(byte))]);
            }
            EngineRequest::Sent => self.call(calls.sent, &[user]),
            EngineRequest::Done(n) => {
                self.call(
                    calls.done,
                    &[user, Value::I32(engine.buffer), Value::I32(n)],
                );
            }
            EngineRequest::Connect(address, read) => {
                let answer = self.ask(
                    calls.connect,
                    &[
                        user,
                        Value::I32(u32::from(address)),
                        Value::I32(u32::from(read)),
                    ],
                    1,
                );
                self.take_answer(place, answer);
            }
            EngineRequest::Read => {
                let answer = self.ask(calls.read, &[user], 255);
                self.take_byte(place, answer);
            }
            EngineRequest::Write(byte) => {
                let answer = self.ask(calls.write, &[user, Value::I32(u32::from(byte))], 1);
                self.take_answer(place, answer);
            }
            EngineRequest::Disconnect => self.call(calls.disconnect, &[user]),
        }
    }

    /// A request of the engine at a place, if any, behind which it may ask for a further one; tells the pins that may be driven
    /// otherwise then.
    fn serve_next(
        &mut self,
        place: usize,
        request: Option<EngineRequest>,
        later: Option<EngineRequest>,
    ) -> Span
        requires { place < 24 }
        ensures state { self.new ≡ record self.old { chip = served self.old.chip self.old.cycle place request later } }
        ensures drives { DrivesBut result self.new.chip self.old.chip }
    {
        if let Some(request) = request {
            if self.dead.is_some() {
                return Span::none();
            }
            if let Some(engine) = self.host.engine(place) {
                let waiting = Engine { later, ..engine };
                self.host.set_engine(place, waiting);
                self.serve(place, waiting, request);
                return request_span(request, engine.pins.out);
            }
        }
        Span::none()
    }

    /// Serves what an engine asks for in its turn, and tells the pins that may be driven otherwise then.
    fn serve_turn(&mut self, place: usize, turn: Turn) -> Span
        requires { place < 24 }
        ensures state { self.new ≡ record self.old { chip = all_served self.old.chip self.old.cycle place (option_to_list turn.first ++ option_to_list turn.second) } }
        ensures drives { DrivesBut result self.new.chip self.old.chip }
    {
        match (turn.first, turn.second) {
            (None, None) => Span::none(),
            (first, second) => {
                let by_first = self.serve_next(place, first, second);
                let by_second = self.serve_next(place, second, None);
                both(by_first, by_second)
            }
        }
    }

    /// The pin of the engine at a place, where that may be driven otherwise.
    fn moved_at(&self, place: usize, moved: bool) -> Span
        ensures { result ≡ moved_span moved (engine_at self.now.chip.inventory place) }
    {
        if moved {
            out_span(self.host.out_pin(place))
        } else {
            Span::none()
        }
    }

    /// The turn of the engine at a place, and the pins that may be driven otherwise then.
    fn engine_turn(&mut self, place: usize) -> Span
        requires within { place < 24 }
        requires end { self.old.cycle < MOST_CYCLES }
        ensures state { self.new ≡ record self.old { chip = engine_turn self.old.chip self.old.cycle self.old.before place } }
        ensures drives { DrivesBut result self.new.chip self.old.chip }
    {
        if self.dead.is_some() {
            return Span::none();
        }
        match self.host.turn(place, self.before.as_slice()) {
            Some(turn) => {
                let own = self.moved_at(place, turn.moved);
                both(own, self.serve_turn(place, turn))
            }
            None => Span::none(),
        }
    }

    /// The next place from one on at which an engine may stand, or the end.
    fn next_place(&self, from: usize) -> usize
        requires { from ≤ 24 }
        ensures from { from ≤ result }
        ensures within { result ≤ 24 }
        ensures passed { (k : ℕ) → from ≤ k → k < result → engine_at self.now.chip.inventory k ≡ None }
        ensures all { length self.now.chip.inventory.engines ≡ 24 }
    {
        self.host.next_place(from)
    }

    /// The turns of the engines, and the pins that may be driven otherwise then.
    fn engine_turns(&mut self) -> Span
        requires end { self.old.cycle < MOST_CYCLES }
        ensures state { self.new ≡ record self.old { chip = engines_last self.old.chip self.old.cycle self.old.before } }
        ensures drives { DrivesBut result self.new.chip self.old.chip }
    {
        let mut moved = Span::none();
        let mut place = self.next_place(0);
        while place < 24 {
            moved = both(moved, self.engine_turn(place));
            place = self.next_place(place + 1);
        }
        moved
    }

    /// What a pin drives.
    pub(crate) fn pin_drive(&self, pin: u8) -> Drive
        ensures { result ≡ chip_drive self.now.chip pin }
    {
        if self.dead.is_some() {
            return Drive::Z;
        }
        self.host.drive(pin)
    }

    pub(crate) fn next_due(&self) -> Option<u64>
        ensures due { result ≡ next_due self.now.chip self.now.cycle }
        ensures end { self.now.cycle ≤ MOST_CYCLES }
    {
        let cycle = self.host.cycle();
        if cycle == 0 {
            return Some(0);
        }
        if self.dead.is_some() {
            return None;
        }
        self.host.first_due(cycle)
    }

    /// Keeps the levels of the step before, which stay.
    pub(crate) fn keep_levels(&mut self)
        ensures { self.new ≡ record self.old { before = self.old.chip.held } }
    {
        self.before.copy_from_slice(self.host.levels());
    }

    /// Takes these levels, and keeps those of the step before.
    pub(crate) fn see(&mut self, levels: &[Level])
        requires { length levels.now ≡ length self.old.chip.given.names }
        ensures { self.new ≡ record self.old { chip = seeing self.old.chip levels.now; before = self.old.chip.held } }
    {
        self.host.swap_levels(&mut self.before);
        self.host.see(levels);
    }

    /// All turns of its cycle, and the pins that may be driven otherwise then.
    pub(crate) fn take_turns(&mut self) -> Span
        requires end { self.old.cycle < MOST_CYCLES }
        requires count { self.old.wakes ≤ self.old.cycle }
        ensures state { self.new ≡ turned self.old }
        ensures drives { DrivesBut result self.new.chip self.old.chip }
    {
        let fired = self.timer_turns();
        let called = self.watch_turns();
        let moved = self.engine_turns();
        let cycle = self.host.cycle();
        self.host.pass_to(cycle + 1);
        self.wakes += 1;
        all_if(fired, called, moved)
    }

    pub(crate) fn pass_to(&mut self, to: u64)
        requires { to ≤ MOST_CYCLES }
        ensures { self.new ≡ record self.old { cycle = to } }
    {
        self.host.pass_to(to);
    }
}
