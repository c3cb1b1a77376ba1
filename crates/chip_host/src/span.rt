//! Spans of a chip's pins.
ghost use Rattle.std.specs.Prelude.{◌≡◌, ◌≢◌, ◌<◌, ℕ, false};
ghost use Rattle.part_law.specs.Spans.{IsIn};
ghost use Rattle.chip_host.specs.Shown.{out_span, request_span};

use part_law::Span;
use slave_request::EngineRequest;

/// A pin alone.
fn one_pin(pin: u8) -> Span
    requires { pin < 64 }
    ensures { (k : ℕ) → ¬ IsIn result k → k ≢ pin }
{
    Span {
        from: pin,
        to: pin + 1,
    }
}

/// Some pins, and one more.
pub(crate) fn with_pin(moved: Span, pin: u8) -> Span
    requires { pin < 64 }
    ensures { (k : ℕ) → ¬ IsIn result k → (¬ IsIn moved k) × (k ≢ pin) }
{
    moved.joined(one_pin(pin))
}

/// The pin that an engine drives, where it has one.
pub(crate) fn out_span(pin: Option<u32>) -> Span
    ensures { result ≡ out_span pin }
{
    match pin {
        Some(pin) => {
            if pin < 64 {
                Span {
                    from: pin as u8,
                    to: pin as u8 + 1,
                }
            } else {
                Span::none()
            }
        }
        None => Span::none(),
    }
}

/// The pins that may be driven otherwise behind a request of an engine that drives a pin.
pub(crate) fn request_span(request: EngineRequest, out: Option<u32>) -> Span
    ensures { result ≡ request_span request out }
{
    match request {
        EngineRequest::None | EngineRequest::Store(_, _) => Span::none(),
        EngineRequest::Fetch(_) => out_span(out),
        _ => Span::all(),
    }
}

/// The pins of two spans.
pub(crate) fn both(a: Span, b: Span) -> Span
    ensures { (k : ℕ) → ¬ IsIn result k → (¬ IsIn a k) × (¬ IsIn b k) }
{
    if b.has_any() { a.joined(b) } else { a }
}

/// All pins where a timer or a watch called back, and otherwise these.
pub(crate) fn all_if(fired: bool, called: bool, moved: Span) -> Span
    ensures { (k : ℕ) → k < 64 → ¬ IsIn result k → (fired ≡ false) × (called ≡ false) × (¬ IsIn moved k) }
{
    if fired || called { Span::all() } else { moved }
}
