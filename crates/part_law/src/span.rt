//! Pins that stand side by side.
ghost use Rattle.std.specs.Prelude.{◌≡◌, nat_lt};
ghost use Rattle.part_law.specs.Spans.{all_pins, no_pins, join};

/// The pins of a part from one up to another, and without it; none where `to` is not above `from`.
#[derive(Clone, Copy, Debug, PartialEq, Eq, Drop)]
pub struct Span {
    pub from: u8,
    pub to: u8,
}

impl Span {
    /// Every pin that a part may have.
    #[inline]
    pub fn all() -> Self
        ensures { result ≡ all_pins }
    {
        Span { from: 0, to: 255 }
    }

    #[inline]
    pub fn none() -> Self
        ensures { result ≡ no_pins }
    {
        Span { from: 0, to: 0 }
    }

    /// Whether it has a pin.
    #[inline]
    pub fn has_any(self) -> bool
        ensures { result ≡ nat_lt self.from self.to }
    {
        self.from < self.to
    }

    /// The least span that has the pins of both, where this one has any.
    #[inline]
    pub fn joined(self, other: Span) -> Span
        ensures { result ≡ join self other }
    {
        if self.has_any() {
            Span {
                from: self.from.min(other.from),
                to: self.to.max(other.to),
            }
        } else {
            other
        }
    }
}
