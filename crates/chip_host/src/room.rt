//! What a chip and its host write in, made before the chip is set up.
ghost use Rattle.std.specs.Prelude.{◌≡◌, [], IfOk, OnOk, length, replicate};
ghost use Rattle.chip_output.specs.Output.{new_output};
ghost use Rattle.chip_host.specs.Rooms.{IsEmpty, HasRoom};

use crate::pin::Pin;
use crate::timer::Timer;
use crate::watch::Watch;
use chip_engines::Engine;
use chip_output::Output;
use sim_base::{Display, Level, OutOfMemory};
use std::alloc::{AllocError, Global};

/// Fills an empty list with a value, so many times.
fn fill<T: Copy>(list: &mut Vec<T>, value: T, count: usize) -> Result<(), AllocError>
    requires { list.old.items ≡ [] }
    ensures { OnOk result (list.new.items ≡ replicate count value) }
{
    list.resize(count, value)
}

/// A value, so many times.
pub(crate) fn filled<T: Copy>(alloc: Global, value: T, count: usize) -> Result<Vec<T>, OutOfMemory>
    ensures items { IfOk result (λ v. v.items ≡ replicate count value) }
    ensures len { IfOk result (λ v. length v.items ≡ count) }
{
    let mut list = Vec::new(alloc);
    match fill(&mut list, value, count) {
        Ok(()) => Ok(list),
        Err(_) => Err(OutOfMemory),
    }
}

/// What a host keeps beside what it is given.
#[derive(Drop)]
pub(crate) struct Room {
    pub levels: Vec<Level>,
    pub pins: Vec<Option<Pin>>,
    pub watches: Vec<Option<Watch>>,
    pub timers: Vec<Timer>,
    pub attributes: Vec<u32>,
    pub engines: Vec<Option<Engine>>,
    pub output: Output,
}

impl Room {
    pub fn new(alloc: Global, count: usize, display: &Option<Display>) -> Result<Room, OutOfMemory>
        ensures room { IfOk result (λ r. HasRoom count r) }
        ensures output { IfOk result (λ r. r.output ≡ new_output display.now) }
    {
        let output = Output::new(alloc, *display)?;
        let mut room = Room {
            levels: Vec::new(alloc),
            pins: Vec::new(alloc),
            watches: Vec::new(alloc),
            timers: Vec::new(alloc),
            attributes: Vec::new(alloc),
            engines: Vec::new(alloc),
            output,
        };
        match room.make(count) {
            Ok(()) => Ok(room),
            Err(_) => {
                // One call, where a drop at the end of the scope is proved list by list.
                drop(room);
                Err(OutOfMemory)
            }
        }
    }

    // It has only a reference, so it has nothing to drop where memory runs out.
    fn make(&mut self, count: usize) -> Result<(), AllocError>
        requires { IsEmpty self.old }
        ensures room { OnOk result (HasRoom count self.new) }
        ensures output { self.new.output ≡ self.old.output }
    {
        fill(&mut self.levels, Level::Z, count)?;
        fill(&mut self.pins, None, count)?;
        fill(&mut self.watches, None, count)?;
        self.timers.reserve(32)?;
        self.attributes.reserve(64)?;
        fill(&mut self.engines, None, 24)
    }
}
