//! Copies and fills of memory, behind their unit.
ghost use Rattle.std.specs.Prelude.{◌≡◌, ◌+◌, ◌-◌, ◌∷◌, ◌<◌, ◌≤◌, ◌^◌, length, true, suc};
ghost use Rattle.wasm_interpreter.specs.Machine.{stack};
ghost use Rattle.wasm_interpreter.specs.Turns.{bulk, copies, fills, three_words, copied_by, filled_by, IsFineTurn};
ghost use Rattle.wasm_interpreter.specs.Gives.{TurnGives};

use crate::stack::top;
use crate::store::Store;
use crate::turn::Turn;
use wasm_num::Trap;

/// The three words on top, the topmost first.
#[derive(Clone, Copy)]
struct Three {
    first: u32,
    second: u32,
    third: u32,
}

fn top_three(slots: &[u64], sp: usize) -> Three
    requires within { sp ≤ length slots.now }
    requires words { three_words (stack slots.now sp) ≡ true }
    ensures stack { stack slots.now sp ≡ result.first ∷ result.second ∷ result.third ∷ stack slots.now (sp - 3) }
    ensures some { 3 ≤ sp }
{
    Three {
        first: top(slots, sp) as u32,
        second: top(slots, sp - 1) as u32,
        third: top(slots, sp - 2) as u32,
    }
}

/// `memory.copy`, with so much fuel behind its unit.
#[inline(never)]
pub fn copy(slots: &[u64], pc: usize, sp: usize, store: &mut Store, left: u32) -> Turn
    requires place { pc < 2 ^ 32 }
    requires within { sp ≤ length slots.now }
    requires fine { IsFineTurn (length slots.now) (bulk copies pc (stack slots.now sp) store.old (suc left)) }
    ensures turn { TurnGives result slots.now (bulk copies pc (stack slots.now sp) store.old (suc left)) }
    ensures store { store.new ≡ copied_by (stack slots.now sp) store.old left }
{
    let three = top_three(slots, sp);
    let (count, origin, to) = (three.first, three.second, three.third);
    if !store.memory.can_copy(to, origin, count) {
        return Turn::Stops(Trap::MemoryBounds, left);
    }
    let units = count / 64;
    if units > left {
        return Turn::Stops(Trap::Budget, left);
    }
    match store.memory.copy(to, origin, count) {
        Ok(()) => Turn::Goes(pc + 1, sp - 3, left - units),
        Err(trap) => Turn::Stops(trap, left),
    }
}

/// `memory.fill`, with so much fuel behind its unit.
#[inline(never)]
pub fn fill(slots: &[u64], pc: usize, sp: usize, store: &mut Store, left: u32) -> Turn
    requires place { pc < 2 ^ 32 }
    requires within { sp ≤ length slots.now }
    requires fine { IsFineTurn (length slots.now) (bulk fills pc (stack slots.now sp) store.old (suc left)) }
    ensures turn { TurnGives result slots.now (bulk fills pc (stack slots.now sp) store.old (suc left)) }
    ensures store { store.new ≡ filled_by (stack slots.now sp) store.old left }
{
    let three = top_three(slots, sp);
    let (count, value, to) = (three.first, three.second, three.third);
    if !store.memory.has(to, count) {
        return Turn::Stops(Trap::MemoryBounds, left);
    }
    let more = count / 64;
    if more > left {
        return Turn::Stops(Trap::Budget, left);
    }
    match store.memory.fill(to, (value % 256) as u8, count) {
        Ok(()) => Turn::Goes(pc + 1, sp - 3, left - more),
        Err(trap) => Turn::Stops(trap, left),
    }
}
