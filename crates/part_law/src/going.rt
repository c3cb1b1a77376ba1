//! The cycles before a limit.
ghost use Rattle.std.specs.Prelude.{◌≡◌, ℕ, ◌<◌, ◌≤◌, Some, None, Option};

/// The due cycle, if there is one below the limit.
pub(crate) fn below(at: Option<u64>, limit: u64) -> Option<u64>
    ensures some { (u : ℕ) → result ≡ Some u → (at ≡ Some u) × (u < limit) }
    ensures none { (u : ℕ) → result ≡ None → at ≡ Some u → limit ≤ u }
{
    match at {
        Some(u) if u < limit => Some(u),
        _ => None,
    }
}
