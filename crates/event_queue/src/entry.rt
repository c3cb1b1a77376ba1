//! What stands at a place of the tree.
ghost use Rattle.std.specs.Prelude.{◌≡◌, ◌⊎◌, true, false};
ghost use Rattle.event_queue.specs.Places.{IsNotAfter, with_cycle};

/// A part, and the cycle in which it is due.
#[derive(Clone, Copy, Debug, PartialEq, Eq, Drop)]
pub(crate) struct Entry {
    pub(crate) due: Option<u64>,
    pub(crate) part: u8,
}

impl Entry {
    /// The cycle in which the part is due, with the part.
    #[inline]
    pub(crate) fn with_cycle(self) -> Option<(u64, u8)>
        ensures { result ≡ with_cycle self }
    {
        match self.due {
            Some(u) => Some((u, self.part)),
            None => None,
        }
    }
}

/// Whether the first of two entries stands before the second: by cycle, then by part.
fn is_before(a: Entry, b: Entry) -> bool
    ensures yes { result ≡ true → IsNotAfter a b }
    ensures no { result ≡ false → IsNotAfter b a }
{
    match (a.due, b.due) {
        (Some(u), Some(v)) => u < v || (u == v && a.part <= b.part),
        (Some(_), None) => true,
        (None, Some(_)) => false,
        (None, None) => true,
    }
}

/// The earlier of two entries.
pub(crate) fn earlier(a: Entry, b: Entry) -> Entry
    ensures one { (result ≡ a) ⊎ (result ≡ b) }
    ensures first { IsNotAfter result a }
    ensures second { IsNotAfter result b }
{
    if is_before(a, b) { a } else { b }
}
