//! The next cycle in which something may happen, and how long one part may go on by itself.
ghost use Rattle.std.specs.Prelude.{◌≡◌, ◌≢◌, ◌⊎◌, ℕ, ◌<◌, ◌≤◌, length, Some, None, slice_get};
ghost use Rattle.std.specs.Option.{ForSome};
ghost use Rattle.board_model.specs.Board.{input_at};
ghost use Rattle.board_run.specs.Upcoming.{AreBehind, IsInOrder};
ghost use Rattle.board_run.specs.Lagging.{AreLate};
ghost use Rattle.board_run.specs.Legs.{IsAlone};
ghost use Rattle.board_run.specs.Engine.{MayRun, MayStretch, IsNext};

use crate::engine::Engine;
use event_queue::DueTree;
use part_law::Part;
use sim_base::Input;

/// The due cycle if it is before n, and else n.
#[inline]
fn at_most(first: Option<(u64, u8)>, n: u64) -> u64
    ensures within { result ≤ n }
    ensures due { (u i : ℕ) → first ≡ Some (u, i) → result ≤ u }
    ensures one { (result ≡ n) ⊎ ((i : ℕ) × (first ≡ Some (result, i))) }
{
    match first {
        Some((u, _)) if u < n => u,
        _ => n,
    }
}

/// The first due cycle, if it is before n, and else n.
#[inline]
fn first_due(dues: &DueTree, t: u64, n: u64) -> u64
    requires order { t ≤ n }
    requires late { AreLate dues.now t }
    ensures from { t ≤ result }
    ensures within { result ≤ n }
    ensures due { AreLate dues.now result }
    ensures one { result < n → (k : ℕ) × (slice_get dues.now k ≡ Some (Some result)) }
{
    let first = dues.first();
    at_most(first, n)
}

/// The first due cycle of the parts but one, if it is before n, and else n.
#[inline]
fn first_due_but(dues: &mut DueTree, who: u8, t: u64, n: u64) -> u64
    requires order { t ≤ n }
    requires who { who < length dues.old }
    requires late { AreLate dues.old t }
    ensures same { dues.new ≡ dues.old }
    ensures from { t ≤ result }
    ensures within { result ≤ n }
    ensures due { (k u : ℕ) → k ≢ who → slice_get dues.old k ≡ Some (Some u) → result ≤ u }
{
    let first = dues.first_but(who);
    at_most(first, n)
}

/// The cycle of the script's next value, if it is before n, and else n.
#[inline]
fn first_input(inputs: &[Input], input: usize, t: u64, n: u64) -> u64
    requires within { t ≤ n }
    requires order { IsInOrder inputs.now }
    requires behind { AreBehind inputs.now input t }
    ensures from { t ≤ result }
    ensures within { result ≤ n }
    ensures silent { (v k : ℕ) → t ≤ v → v < result → input_at inputs.now v k ≡ None }
    ensures behind { AreBehind inputs.now input result }
    ensures one { result < n → (k : ℕ) × (input_at inputs.now result k ≢ None) }
{
    if input < inputs.len() && inputs[input].cycle < n {
        inputs[input].cycle
    } else {
        n
    }
}

/// The first part that is due, and up to which cycle it is alone from cycle t on: no other part is due and the script says
/// nothing.
#[inline(always)]
fn first_alone(
    dues: &mut DueTree,
    inputs: &[Input],
    input: usize,
    t: u64,
    n: u64,
) -> Option<(u8, u64)>
    requires before { t < n }
    requires order { IsInOrder inputs.now }
    requires behind { AreBehind inputs.now input t }
    requires late { AreLate dues.old t }
    ensures same { dues.new ≡ dues.old }
    ensures within { (x : ℕ × ℕ) → result ≡ Some x → x.1 ≤ n }
    ensures alone { (x : ℕ × ℕ) → result ≡ Some x → IsAlone inputs.now dues.old input x.0 t x.1 }
{
    match dues.first() {
        Some((_, who)) => {
            let due = first_due_but(dues, who, t, n);
            let limit = first_input(inputs, input, t, due);
            if t < limit { Some((who, limit)) } else { None }
        }
        None => None,
    }
}

impl<P: Part> Engine<P> {
    /// The next cycle from its own on, not after n, in which something may happen.
    #[inline]
    pub(crate) fn next_cycle(&self, n: u64) -> u64
        requires within { self.now.cycle ≤ n }
        requires may { MayRun P.Part self.now }
        ensures { IsNext self.now n result }
    {
        if self.changed | (self.cycle == 0) {
            return self.cycle;
        }
        let due = first_due(&self.dues, self.cycle, n);
        first_input(self.inputs.as_slice(), self.input, self.cycle, due)
    }

    /// Goes to that cycle.
    #[inline]
    pub(crate) fn skip(&mut self, n: u64)
        requires within { self.old.cycle ≤ n }
        requires may { MayRun P.Part self.old }
        ensures next { IsNext self.old n self.new.cycle }
        ensures rest { self.new ≡ record self.old { cycle = self.new.cycle } }
    {
        self.cycle = self.next_cycle(n);
    }

    /// The part that may go on by itself, and up to which cycle, not after n.
    #[inline(always)]
    pub(crate) fn find_alone(&mut self, n: u64) -> Option<(u8, u64)>
        requires before { self.old.cycle < n }
        requires may { MayRun P.Part self.old }
        ensures same { self.new ≡ self.old }
        ensures alone { ForSome result (λ x. MayStretch self.old x.0 x.1 n) }
    {
        if self.changed || self.cycle == 0 {
            return None;
        }
        first_alone(
            &mut self.dues,
            self.inputs.as_slice(),
            self.input,
            self.cycle,
            n,
        )
    }
}
