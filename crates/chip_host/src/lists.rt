//! What is at a place of a list.
ghost use Rattle.std.specs.Prelude.{◌≡◌, slice_get, unwrap_or};

/// What is at a place of a list; outside of it, what is given for that.
#[inline]
pub(crate) fn read_or<T: Copy>(list: &[T], i: usize, absent: T) -> T
    ensures { result ≡ unwrap_or (slice_get list.now i) absent }
{
    match list.get(i) {
        Some(x) => *x,
        None => absent,
    }
}
