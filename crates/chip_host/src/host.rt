//! The host that a chip's module imports from.
ghost use Rattle.std.specs.Prelude.{◌≡◌, ℕ, ◌<◌, ◌≤◌, ◌==◌, ◌+◌, ◌++◌, ◌*◌, [], ◌∷◌, not, length, map, drop, IfOk, IfSome, Some, slice_get, slice_set, option_map, option_to_list, None, false};
ghost use Rattle.std.specs.List.{position_from};
ghost use Rattle.wasm_code.specs.declared.types.ValType.TheVariants as types;
ghost use Rattle.wasm_semantics.specs.Values.{HasTypes};
ghost use Rattle.chip_host.specs.Inventory.{HostState, left, pin_at, watch_at, engine_at, out_pin, with_mode, drive_of, pin_drives};
ghost use Rattle.chip_abi.specs.HostNames.{type_of_name};
ghost use Rattle.chip_abi.specs.Reading.{word_at, text_in};
ghost use Rattle.chip_host.specs.FirstDue.{first_due};
ghost use Rattle.chip_host.specs.Turned.{HasTurned};
ghost use Rattle.chip_host.specs.Chip.{first_host};
ghost use Rattle.chip_output.specs.Output.{picture};
ghost use Rattle.chip_host.specs.HostCall.{has_name, kept, set_pin, pin_init, read_pin, write_pin, watch_pin, watch_from, timer_init, timer_from, start_timer, stop_timer, mode_pin, unwatch, started, level_of, attribute_from, attr_init, read_attribute, set_engine, free_id, host_does, host_at};
ghost use Rattle.chip_engines.specs.Engine.{IsEngine};
ghost use Rattle.chip_engines.specs.FirstDue.{earlier, first_engine};

use crate::arguments::{none, one, three, two, with_long};
use crate::attributes::{attr_value, is_same};
use crate::lists::read_or;
use crate::pin::{Pin, drive_of, with_mode};
use crate::room::Room;
use crate::timer::{Delay, Timer, first_due, started, stopped};
use crate::watch::Watch;
use chip_abi::{HostName, ImportMap, read_string, read_word};
use chip_engines::{Engine, Turn, driven, earlier, first_engine, free, turn_at};
use chip_output::Output;
use sim_base::{Display, Drive, Level, List, MOST_CYCLES, Name, OutOfMemory, Text, reads_one};
use std::alloc::Global;
use std::marker::Model;
use std::mem;
use wasm_num::{Memory, Trap, Value};
use wasm_semantics::Host;

/// What a module imports from, in a cycle; `init` tells whether the chip is being set up.
#[derive(Drop)]
pub struct ChipHost {
    map: ImportMap,
    names: List<Option<Name>>,
    attrs: List<(Text, Text)>,
    display: Option<Display>,
    init: bool,
    cycle: u64,
    levels: Vec<Level>,
    pins: Vec<Option<Pin>>,
    watches: Vec<Option<Watch>>,
    timers: Vec<Timer>,
    attributes: Vec<u32>,
    engines: Vec<Option<Engine>>,
    output: Output,
    // All engines stand at places from `first` to below `end`.
    first: usize,
    end: usize,
    // Whether a pin may have a watch.
    watched: bool,
}

impl Model for ChipHost {
    ghost use Rattle.std.specs.Prelude.{◌≡◌, ◌<◌, ◌≤◌, ℕ, false, length};
    ghost use Rattle.std.specs.Vec.{vec_capacity};
    ghost use Rattle.chip_engines.specs.Engine.{AreEngines, HasNone};
    ghost use Rattle.chip_host.specs.Inventory.{HostState};
    ghost use Rattle.sim_base.specs.declared.limits.TheConstants.{MOST_CYCLES};

    ghost Value = { HostState };

    ghost view = { λ c. record {
      moment = record { given = record { table = c.map; names = c.names; attrs = c.attrs; display = c.display }; init = c.init; now = c.cycle; levels = c.levels.items };
      inventory = record { pins = c.pins.items; watches = c.watches.items; timers = c.timers.items; attributes = c.attributes.items; engines = c.engines.items; output = c.output };
    } };

    ghost invariant = { λ c. record {
      few : length c.names ≤ 64;
      levels : length c.levels.items ≡ length c.names;
      pins : length c.pins.items ≡ length c.names;
      watches : length c.watches.items ≡ length c.names;
      timer_room : 32 ≤ vec_capacity c.timers;
      attribute_room : 64 ≤ vec_capacity c.attributes;
      places : length c.engines.items ≡ 24;
      sound : AreEngines c.engines.items;
      order : c.first ≤ c.end;
      within : c.end ≤ 24;
      before : (k : ℕ) → k < c.first → HasNone c.engines.items k;
      behind : (k : ℕ) → c.end ≤ k → HasNone c.engines.items k;
      unwatched : c.watched ≡ false → (k : ℕ) → HasNone c.watches.items k;
      end : c.cycle ≤ MOST_CYCLES;
    } };
}

fn has_name(text: &[u8], name: &Option<Name>) -> bool
    ensures { result ≡ has_name text.now name.now }
{
    match name {
        Some(name) => is_same(text, name.bytes()),
        None => false,
    }
}

fn named_pin(names: &[Option<Name>], text: &[u8]) -> Option<u32>
    requires { length names.now ≤ 64 }
    ensures place { result ≡ position_from (has_name text.now) 0 names.now }
    ensures within { IfSome result (λ i. i < length names.now) }
{
    for i in 0..names.len() {
        if has_name(text, &names[i]) {
            return Some(i as u32);
        }
    }
    None
}

fn kept(pin: Option<Pin>) -> bool
    ensures { result ≡ kept pin }
{
    match pin {
        Some(pin) => pin.high,
        None => false,
    }
}

/// The first place of those from `first` to below `end` and of one more.
fn first_with(first: usize, end: usize, place: usize) -> usize
    ensures within { result ≤ place }
    ensures far { (k : ℕ) → k < result → first ≤ k → end ≤ k }
{
    if first == end {
        place
    } else {
        first.min(place)
    }
}

fn read_watch(memory: &Memory, addr: u32) -> Result<Watch, Trap>
    ensures { result ≡ watch_from (word_at memory.now (addr + 0)) (word_at memory.now (addr + 4)) (word_at memory.now (addr + 8)) }
{
    let user = read_word(memory, addr, 0)?;
    let edge = read_word(memory, addr, 4)?;
    let callback = read_word(memory, addr, 8)?;
    Ok(Watch {
        user,
        edge,
        callback,
    })
}

fn read_timer(memory: &Memory, addr: u32) -> Result<Timer, Trap>
    ensures { result ≡ timer_from (word_at memory.now (addr + 0)) (word_at memory.now (addr + 4)) }
{
    let user = read_word(memory, addr, 0)?;
    let callback = read_word(memory, addr, 4)?;
    Ok(Timer {
        user,
        callback,
        due: None,
        again: None,
    })
}

impl ChipHost {
    /// A pin that `pinInit` gave.
    pub fn pin(&self, i: u32) -> Option<Pin>
        ensures pin { result ≡ pin_at self.now.inventory i }
        ensures within { IfSome result (λ p. i < length self.now.inventory.pins) }
    {
        match self.pins.as_slice().get(i as usize) {
            Some(pin) => *pin,
            None => None,
        }
    }

    fn set_pin(&mut self, i: u32, pin: Pin)
        requires { i < length self.old.inventory.pins }
        ensures { self.new ≡ left self.old (set_pin self.old.inventory i pin) }
    {
        self.pins[i as usize] = Some(pin);
    }

    fn level(&self, i: u32) -> Level
        ensures { result ≡ level_of self.now.moment.levels i }
    {
        read_or(self.levels.as_slice(), i as usize, Level::Z)
    }

    fn pin_init(&mut self, addr: u32, mode: u32, memory: &Memory) -> Result<Option<Value>, Trap>
        ensures answer { result ≡ (pin_init self.old.moment addr mode memory.now self.old.inventory).answer }
        ensures after { self.new ≡ left self.old (pin_init self.old.moment addr mode memory.now self.old.inventory).inventory }
        ensures gives { IfOk result (λ v. HasTypes (option_to_list v) (types.I32 ∷ [])) }
    {
        if !self.init {
            return Err(Trap::HostPhase);
        }
        match read_string(memory, addr) {
            Ok(text) => match named_pin(self.names.as_slice(), text) {
                Some(i) => {
                    let pin = with_mode(mode, kept(self.pin(i)));
                    self.set_pin(i, pin);
                    Ok(Some(Value::I32(i)))
                }
                None => Ok(Some(Value::I32(u32::MAX))),
            },
            Err(trap) => Err(trap),
        }
    }

    fn pin_read(&self, i: u32) -> Result<Option<Value>, Trap>
        ensures answer { result ≡ (read_pin (pin_at self.now.inventory i) (level_of self.now.moment.levels i) self.now.inventory).answer }
        ensures after { self.now.inventory ≡ (read_pin (pin_at self.now.inventory i) (level_of self.now.moment.levels i) self.now.inventory).inventory }
        ensures gives { IfOk result (λ v. HasTypes (option_to_list v) (types.I32 ∷ [])) }
    {
        match self.pin(i) {
            Some(_) => Ok(Some(Value::I32(u32::from(reads_one(self.level(i)))))),
            None => Ok(Some(Value::I32(0))),
        }
    }

    fn pin_write(&mut self, i: u32, high: bool) -> Result<Option<Value>, Trap>
        ensures answer { result ≡ (write_pin (pin_at self.old.inventory i) i high self.old.inventory).answer }
        ensures after { self.new ≡ left self.old (write_pin (pin_at self.old.inventory i) i high self.old.inventory).inventory }
        ensures gives { IfOk result (λ v. HasTypes (option_to_list v) []) }
    {
        if let Some(pin) = self.pin(i) {
            self.set_pin(
                i,
                Pin {
                    mode: pin.mode,
                    high,
                },
            );
        }
        Ok(None)
    }

    fn pin_watch(&mut self, i: u32, addr: u32, memory: &Memory) -> Result<Option<Value>, Trap>
        ensures answer { result ≡ (watch_pin (pin_at self.old.inventory i) i addr memory.now self.old.inventory).answer }
        ensures after { self.new ≡ left self.old (watch_pin (pin_at self.old.inventory i) i addr memory.now self.old.inventory).inventory }
        ensures gives { IfOk result (λ v. HasTypes (option_to_list v) (types.I32 ∷ [])) }
    {
        match self.pin(i) {
            None => Ok(Some(Value::I32(0))),
            Some(_) => match read_watch(memory, addr) {
                Err(trap) => Err(trap),
                Ok(watch) => {
                    self.watches[i as usize] = Some(watch);
                    self.watched = true;
                    Ok(Some(Value::I32(1)))
                }
            },
        }
    }

    fn push_timer(&mut self, timer: Timer)
        requires { length self.old.inventory.timers < 32 }
        ensures { self.new ≡ left self.old (record self.old.inventory { timers = self.old.inventory.timers ++ timer ∷ [] }) }
    {
        match self.timers.push(timer) {
            Ok(()) => {}
            Err(_) => unreachable!(),
        }
    }

    fn timer_init(&mut self, addr: u32, memory: &Memory) -> Result<Option<Value>, Trap>
        ensures answer { result ≡ (timer_init self.old.moment addr memory.now self.old.inventory).answer }
        ensures after { self.new ≡ left self.old (timer_init self.old.moment addr memory.now self.old.inventory).inventory }
        ensures gives { IfOk result (λ v. HasTypes (option_to_list v) (types.I32 ∷ [])) }
    {
        if !self.init {
            return Err(Trap::HostPhase);
        }
        let id = self.timers.len();
        if id >= 32 {
            return Err(Trap::HostLimit);
        }
        match read_timer(memory, addr) {
            Err(trap) => Err(trap),
            Ok(timer) => {
                self.push_timer(timer);
                Ok(Some(Value::I32(id as u32)))
            }
        }
    }

    fn timer_start(&mut self, id: u32, delay: Delay, again: bool) -> Result<Option<Value>, Trap>
        ensures answer { result ≡ (start_timer (slice_get self.old.inventory.timers id) id self.old.moment.now delay again self.old.inventory).answer }
        ensures after { self.new ≡ left self.old (start_timer (slice_get self.old.inventory.timers id) id self.old.moment.now delay again self.old.inventory).inventory }
        ensures gives { IfOk result (λ v. HasTypes (option_to_list v) []) }
    {
        if let Some(timer) = self.timer(id as usize) {
            self.set_timer(id as usize, started(self.cycle, delay, again, timer));
        }
        Ok(None)
    }
}

impl ChipHost {
    fn timer_stop(&mut self, id: u32) -> Result<Option<Value>, Trap>
        ensures answer { result ≡ (stop_timer (slice_get self.old.inventory.timers id) id self.old.inventory).answer }
        ensures after { self.new ≡ left self.old (stop_timer (slice_get self.old.inventory.timers id) id self.old.inventory).inventory }
        ensures gives { IfOk result (λ v. HasTypes (option_to_list v) []) }
    {
        if let Some(timer) = self.timer(id as usize) {
            self.set_timer(id as usize, stopped(timer));
        }
        Ok(None)
    }

    fn pin_mode(&mut self, i: u32, mode: u32) -> Result<Option<Value>, Trap>
        ensures answer { result ≡ (mode_pin (pin_at self.old.inventory i) i mode self.old.inventory).answer }
        ensures after { self.new ≡ left self.old (mode_pin (pin_at self.old.inventory i) i mode self.old.inventory).inventory }
        ensures gives { IfOk result (λ v. HasTypes (option_to_list v) []) }
    {
        if let Some(pin) = self.pin(i) {
            self.set_pin(i, with_mode(mode, pin.high));
        }
        Ok(None)
    }

    fn pin_watch_stop(&mut self, i: u32) -> Result<Option<Value>, Trap>
        ensures answer { result ≡ (unwatch (slice_get self.old.inventory.watches i) i self.old.inventory).answer }
        ensures after { self.new ≡ left self.old (unwatch (slice_get self.old.inventory.watches i) i self.old.inventory).inventory }
        ensures gives { IfOk result (λ v. HasTypes (option_to_list v) []) }
    {
        if (i as usize) < self.watches.len() {
            self.watches[i as usize] = None;
        }
        Ok(None)
    }

    // The value of the attribute whose name is at an address.
    fn attribute(&self, addr: u32, default: u32, memory: &Memory) -> Result<u32, Trap>
        ensures { result ≡ attribute_from (text_in 64 (drop addr memory.now.bytes)) default self.now.moment.given.attrs }
    {
        match read_string(memory, addr) {
            Ok(name) => Ok(attr_value(name, default, self.attrs.as_slice())),
            Err(trap) => Err(trap),
        }
    }

    fn push_attribute(&mut self, value: u32)
        requires { length self.old.inventory.attributes < 64 }
        ensures { self.new ≡ left self.old (record self.old.inventory { attributes = self.old.inventory.attributes ++ value ∷ [] }) }
    {
        match self.attributes.push(value) {
            Ok(()) => {}
            Err(_) => unreachable!(),
        }
    }

    fn attr_init(&mut self, addr: u32, default: u32, memory: &Memory) -> Result<Option<Value>, Trap>
        ensures answer { result ≡ (attr_init self.old.moment addr default memory.now self.old.inventory).answer }
        ensures after { self.new ≡ left self.old (attr_init self.old.moment addr default memory.now self.old.inventory).inventory }
        ensures gives { IfOk result (λ v. HasTypes (option_to_list v) (types.I32 ∷ [])) }
    {
        if !self.init {
            return Err(Trap::HostPhase);
        }
        let id = self.attributes.len();
        if id >= 64 {
            return Err(Trap::HostLimit);
        }
        match self.attribute(addr, default, memory) {
            Err(trap) => Err(trap),
            Ok(value) => {
                self.push_attribute(value);
                Ok(Some(Value::I32(id as u32)))
            }
        }
    }

    fn attr_read(&self, id: u32) -> Result<Option<Value>, Trap>
        ensures answer { result ≡ (read_attribute id self.now.inventory).answer }
        ensures after { self.now.inventory ≡ (read_attribute id self.now.inventory).inventory }
        ensures gives { IfOk result (λ v. HasTypes (option_to_list v) (types.I32 ∷ [])) }
    {
        let value = read_or(self.attributes.as_slice(), id as usize, 0);
        Ok(Some(Value::I32(value)))
    }

    /// A function of the host that leaves the memory.
    fn does(
        &mut self,
        name: HostName,
        args: &[Value],
        memory: &Memory,
    ) -> Result<Option<Value>, Trap>
        requires { HasTypes args.now (type_of_name name).params }
        ensures answer { result ≡ (host_does name args.now self.old.moment memory.now self.old.inventory).answer }
        ensures after { self.new ≡ left self.old (host_does name args.now self.old.moment memory.now self.old.inventory).inventory }
        ensures gives { IfOk result (λ v. HasTypes (option_to_list v) (type_of_name name).results) }
    {
        match name {
            HostName::PinInit => {
                let (addr, mode) = two(args);
                self.pin_init(addr, mode, memory)
            }
            HostName::PinRead => self.pin_read(one(args)),
            HostName::PinWrite => {
                let (i, value) = two(args);
                self.pin_write(i, value != 0)
            }
            HostName::PinWatch => {
                let (i, addr) = two(args);
                self.pin_watch(i, addr, memory)
            }
            HostName::AttrInit => {
                let (addr, default) = two(args);
                self.attr_init(addr, default, memory)
            }
            HostName::AttrRead => self.attr_read(one(args)),
            HostName::TimerInit => self.timer_init(one(args), memory),
            HostName::TimerStart => {
                let (id, x, again) = three(args);
                self.timer_start(id, Delay::Micros(x), again != 0)
            }
            HostName::GetSimNanos => {
                none(args);
                Ok(Some(Value::I64(125 * self.cycle / 2)))
            }
            HostName::PinMode => {
                let (i, mode) = two(args);
                self.pin_mode(i, mode)
            }
            HostName::PinWatchStop => self.pin_watch_stop(one(args)),
            HostName::TimerStartNanos => {
                let (id, x, again) = with_long(args);
                self.timer_start(id, Delay::Nanos(x), again != 0)
            }
            HostName::TimerStop => self.timer_stop(one(args)),
            HostName::UartInit => self.uart_init(one(args), memory),
            HostName::UartWrite => {
                let (id, buffer, count) = three(args);
                self.uart_write(id, buffer, count, memory)
            }
            HostName::SpiInit => self.spi_init(one(args), memory),
            HostName::SpiStart => {
                let (id, buffer, count) = three(args);
                self.spi_start(id, buffer, count, memory)
            }
            HostName::SpiStop => self.spi_stop(one(args)),
            HostName::I2cInit => self.i2c_init(one(args), memory),
            HostName::Output(_) => Err(Trap::Unreachable),
        }
    }
}

impl ChipHost {
    /// What a chip that is being set up imports from.
    pub fn new(
        alloc: Global,
        map: ImportMap,
        names: List<Option<Name>>,
        attrs: List<(Text, Text)>,
        display: Option<Display>,
    ) -> Result<ChipHost, OutOfMemory>
        requires { length names ≤ 64 }
        ensures { IfOk result (λ c. c ≡ first_host (record { table = map; names = names; attrs = attrs; display = display })) }
    {
        match Room::new(alloc, names.len(), &display) {
            Ok(room) => Ok(ChipHost {
                map,
                names,
                attrs,
                display,
                init: true,
                cycle: 0,
                levels: room.levels,
                pins: room.pins,
                watches: room.watches,
                timers: room.timers,
                attributes: room.attributes,
                engines: room.engines,
                output: room.output,
                first: 0,
                end: 0,
                watched: false,
            }),
            Err(e) => {
                drop(map);
                drop(names);
                drop(attrs);
                Err(e)
            }
        }
    }

    /// The chip is set up.
    pub fn end_set_up(&mut self)
        ensures { self.new ≡ record self.old { moment = record self.old.moment { init = false } } }
    {
        self.init = false;
    }

    pub fn cycle(&self) -> u64
        ensures value { result ≡ self.now.moment.now }
        ensures end { result ≤ MOST_CYCLES }
    {
        self.cycle
    }

    /// Goes to a cycle.
    pub fn pass_to(&mut self, to: u64)
        requires { to ≤ MOST_CYCLES }
        ensures { self.new ≡ record self.old { moment = record self.old.moment { now = to } } }
    {
        self.cycle = to;
    }

    /// Puts these levels in the place of its own.
    pub fn swap_levels(&mut self, other: &mut Vec<Level>)
        requires { length other.old.items ≡ length self.old.moment.given.names }
        ensures taken { self.new ≡ record self.old { moment = record self.old.moment { levels = other.old.items } } }
        ensures given { other.new.items ≡ self.old.moment.levels }
    {
        mem::swap(&mut self.levels, other);
    }

    pub fn levels(&self) -> &[Level]
        ensures { result.now ≡ self.now.moment.levels }
    {
        self.levels.as_slice()
    }

    /// Takes these levels of its pins.
    pub fn see(&mut self, levels: &[Level])
        requires { length levels.now ≡ length self.old.moment.given.names }
        ensures { self.new ≡ record self.old { moment = record self.old.moment { levels = levels.now } } }
    {
        self.levels.copy_from_slice(levels);
    }

    /// The first cycle from one on, and below the end, at which a timer or an engine is due.
    pub fn first_due(&self, from: u64) -> Option<u64>
        ensures { result ≡ earlier (first_due from self.now.inventory.timers) (first_engine from self.now.inventory.engines) }
    {
        earlier(
            first_due(self.timers.as_slice(), from),
            first_engine(&self.engines.as_slice()[self.first..self.end], from),
        )
    }

    /// Whether the chip is being set up.
    pub fn is_set_up(&self) -> bool
        ensures { result ≡ self.now.moment.init }
    {
        self.init
    }

    /// The next place from one on at which an engine may stand, or the end.
    pub fn next_place(&self, from: usize) -> usize
        requires { from ≤ 24 }
        ensures from { from ≤ result }
        ensures within { result ≤ 24 }
        ensures passed { (k : ℕ) → from ≤ k → k < result → engine_at self.now.inventory k ≡ None }
        ensures all { length self.now.inventory.engines ≡ 24 }
    {
        let place = from.max(self.first);
        if place < self.end { place } else { 24 }
    }

    fn place(&self, place: usize) -> Option<Option<Engine>>
        ensures { result ≡ slice_get self.now.inventory.engines place }
    {
        self.engines.as_slice().get(place).copied()
    }

    /// The engine at a place.
    pub fn engine(&self, place: usize) -> Option<Engine>
        ensures engine { result ≡ engine_at self.now.inventory place }
        ensures sound { IfSome result IsEngine }
    {
        let _init = self.init;
        match self.place(place) {
            Some(engine) => engine,
            None => None,
        }
    }

    /// The pin that the engine at a place drives.
    pub fn out_pin(&self, place: usize) -> Option<u32>
        ensures { result ≡ out_pin (engine_at self.now.inventory place) }
    {
        match self.engines.as_slice().get(place) {
            Some(engine) => match engine {
                Some(engine) => engine.pins.out,
                None => None,
            },
            None => None,
        }
    }

    /// Puts an engine at a place.
    pub fn set_engine(&mut self, place: usize, engine: Engine)
        requires within { place < 24 }
        requires sound { IsEngine engine }
        ensures { self.new ≡ left self.old (set_engine self.old.inventory place engine) }
    {
        self.engines[place] = Some(engine);
        self.first = first_with(self.first, self.end, place);
        self.end = self.end.max(place + 1);
    }

    /// The turn of the engine at a place, on the levels of the cycle before and of this one; None where none stands there.
    pub fn turn(&mut self, place: usize, before: &[Level]) -> Option<Turn>
        requires within { place < 24 }
        requires end { self.old.moment.now < MOST_CYCLES }
        ensures { HasTurned place before.now self.old self.new result }
    {
        turn_at(
            &mut self.engines[place],
            self.cycle,
            before,
            self.levels.as_slice(),
        )
    }

    /// The first id of a kind that was not given.
    pub fn free_id(&self, base: u32) -> Option<u32>
        requires { base ≤ 16 }
        ensures id { result ≡ free_id base self.now.inventory }
        ensures few { IfSome result (λ i. i < 8) }
    {
        let from = base as usize;
        free(&self.engines.as_slice()[from..from + 8])
    }

    pub fn pin_count(&self) -> usize
        ensures count { result ≡ length self.now.moment.given.names }
        ensures few { result ≤ 64 }
    {
        self.names.len()
    }

    pub fn timer_count(&self) -> usize
        ensures { result ≡ length self.now.inventory.timers }
    {
        self.timers.len()
    }

    pub fn timer(&self, id: usize) -> Option<Timer>
        ensures { result ≡ slice_get self.now.inventory.timers id }
    {
        self.timers.as_slice().get(id).copied()
    }

    /// Puts another timer in the place of one.
    pub fn set_timer(&mut self, id: usize, timer: Timer)
        requires { id < length self.old.inventory.timers }
        ensures { self.new ≡ left self.old (record self.old.inventory { timers = slice_set self.old.inventory.timers id timer }) }
    {
        self.timers[id] = timer;
    }

    pub fn watch(&self, i: usize) -> Option<Watch>
        ensures { result ≡ watch_at self.now.inventory i }
    {
        match self.watches.as_slice().get(i) {
            Some(watch) => *watch,
            None => None,
        }
    }

    /// Whether a pin may have a watch.
    pub fn has_watches(&self) -> bool
        ensures { result ≡ false → (k : ℕ) → watch_at self.now.inventory k ≡ None }
    {
        self.watched
    }

    /// The first 65,536 bytes that the chip printed.
    pub fn console(&self) -> &[u8]
        ensures { result.now ≡ self.now.inventory.output.console }
    {
        self.output.console()
    }

    /// Width, height and pixels of its display; None exactly where it has none.
    pub fn frame(&self) -> Option<(u32, u32, &[u8])>
        ensures picture { option_map (λ f. (f.0, (f.1, f.2.now))) result ≡ option_map picture self.now.inventory.output.frame }
        ensures size { IfSome result (λ f. length f.2.now ≡ 4 * (f.0 * f.1)) }
    {
        self.output.frame()
    }

    pub fn drive(&self, i: u8) -> Drive
        ensures { result ≡ pin_drives self.now.inventory i }
    {
        match driven(&self.engines.as_slice()[self.first..self.end], u32::from(i)) {
            Some(drive) => drive,
            None => drive_of(self.pin(u32::from(i))),
        }
    }
}

impl Host for ChipHost {
    ghost use Rattle.std.specs.Prelude.{map};
    ghost use Rattle.chip_host.specs.Inventory.{HostState};
    ghost use Rattle.chip_abi.specs.HostNames.{type_of_name};
    ghost use Rattle.chip_host.specs.HostCall.{answers};

    ghost State = { HostState };

    ghost state = { λ c. c };

    ghost imports = { λ c. map type_of_name c.moment.given.table };

    ghost answers = { answers };

    fn call(
        &mut self,
        import: u32,
        args: &[Value],
        memory: &mut Memory,
    ) -> Result<Option<Value>, Trap> {
        let name = self.map.name(import);
        match name.output() {
            Some(output) => self.output.does(output, args, self.init, memory),
            None => self.does(name, args, memory),
        }
    }
}
