//! The slots in use.
ghost use Rattle.std.specs.Prelude.{◌≡◌, ◌+◌, ◌<◌, ◌≤◌, ◌-◌, ◌∷◌, length, slice_index};
ghost use Rattle.wasm_interpreter.specs.Machine.{stack, cut_to, local_at, with_local};

use crate::op::Target;

#[inline(always)]
pub fn push(slots: &mut [u64], sp: usize, value: u64) -> usize
    requires { sp < length slots.old }
    ensures slots { stack slots.new result ≡ value ∷ stack slots.old sp }
    ensures sp { result ≡ sp + 1 }
{
    slots[sp] = value;
    sp + 1
}

#[inline(always)]
pub fn top(slots: &[u64], sp: usize) -> u64
    requires some { 0 < sp }
    requires within { sp ≤ length slots.now }
    ensures { stack slots.now sp ≡ result ∷ stack slots.now (sp - 1) }
{
    slots[sp - 1]
}

#[inline(always)]
pub fn cut(slots: &mut [u64], sp: usize, target: Target) -> usize
    requires within { sp ≤ length slots.old }
    requires single { target.keep ≤ 1 }
    requires fits { target.keep + target.height ≤ sp }
    ensures slots { stack slots.new result ≡ cut_to target (stack slots.old sp) }
    ensures sp { result ≡ target.keep + target.height }
{
    let height = target.height as usize;
    if target.keep == 0 {
        return height;
    }
    slots[height] = slots[sp - 1];
    height + 1
}

#[inline(always)]
pub fn local(slots: &[u64], sp: usize, i: usize) -> u64
    requires below { i < sp }
    requires within { sp ≤ length slots.now }
    ensures { result ≡ local_at i (stack slots.now sp) }
{
    slots[i]
}

#[inline(always)]
pub fn set_local(slots: &mut [u64], sp: usize, i: usize, value: u64)
    requires below { i < sp }
    requires within { sp ≤ length slots.old }
    ensures { stack slots.new sp ≡ with_local i value (stack slots.old sp) }
{
    slots[i] = value;
}
