//! Sets of a board's parts.
ghost use Rattle.std.specs.Prelude.{◌≡◌, ℕ, ◌<◌, ◌≤◌, ◌||◌, ◌==◌, true, false};
ghost use Rattle.std.specs.Int.{bit_at};
ghost use Rattle.board_run.specs.Parts.{has_part};

/// Some of the at most 64 parts of a board.
#[derive(Clone, Copy, Drop)]
pub(crate) struct PartSet {
    /// Bit i tells whether part i is among them.
    bits: u64,
}

/// The place of the lowest bit that is set.
#[inline]
fn lowest(bits: u64) -> usize
    requires { 0 < bits }
    ensures within { result < 64 }
    ensures here { bit_at bits result ≡ 1 }
    ensures passed { (k : ℕ) → k < result → bit_at bits k ≡ 0 }
{
    bits.trailing_zeros() as usize
}

impl PartSet {
    pub(crate) fn none() -> PartSet
        ensures bits { result ≡ record { bits = 0 } }
        ensures none { (k : ℕ) → has_part result k ≡ false }
    {
        PartSet { bits: 0 }
    }

    #[inline]
    pub(crate) fn has(self, i: usize) -> bool
        requires { i < 64 }
        ensures { result ≡ has_part self i }
    {
        self.bits >> i & 1 == 1
    }

    /// These and part i.
    #[inline]
    pub(crate) fn with(self, i: usize) -> PartSet
        requires { i < 64 }
        ensures { (k : ℕ) → has_part result k ≡ (has_part self k || k == i) }
    {
        PartSet {
            bits: self.bits | 1 << i,
        }
    }

    /// These and the others.
    #[inline]
    pub(crate) fn and(self, others: PartSet) -> PartSet
        ensures { (k : ℕ) → has_part result k ≡ (has_part self k || has_part others k) }
    {
        PartSet {
            bits: self.bits | others.bits,
        }
    }

    /// The least of them from a number on, if it is before the end, and else the end.
    #[inline]
    pub(crate) fn next(self, from: usize, end: usize) -> usize
        requires order { from ≤ end }
        requires end { end ≤ 64 }
        ensures from { from ≤ result }
        ensures within { result ≤ end }
        ensures here { result < end → has_part self result ≡ true }
        ensures passed { (k : ℕ) → from ≤ k → k < result → has_part self k ≡ false }
    {
        if from == end {
            return end;
        }
        let rest = self.bits >> from;
        if rest == 0 {
            return end;
        }
        (from + lowest(rest)).min(end)
    }
}
