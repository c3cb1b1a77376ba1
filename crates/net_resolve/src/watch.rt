//! Pins that are watched, and whether one of them drives something else than what was kept of it.
ghost use Rattle.std.specs.Prelude.{◌≡◌, ◌<◌, length, slice_set};
ghost use Rattle.board_model.specs.Rows.{same_list, same_drive};
ghost use Rattle.net_resolve.specs.Watched.{IsWatch, flagged, unlike};

use crate::resolution::is_same_drive;
use sim_base::Drive;

/// Which pins are watched, what each pin drove when that was kept last, and how many of the watched ones drive something else.
#[derive(Drop)]
pub(crate) struct Watch {
    pub(crate) watched: Vec<bool>,
    pub(crate) kept: Vec<Drive>,
    pub(crate) differing: usize,
}

#[inline(always)]
fn unlike(a: Drive, b: Drive) -> usize
    ensures { result ≡ unlike a b }
{
    if is_same_drive(a, b) { 0 } else { 1 }
}

impl Watch {
    /// A pin is to drive something else.
    #[inline(always)]
    pub(crate) fn note(&mut self, pin: usize, drive: Drive, drives: &[Drive])
        requires pin { pin < length drives.now }
        requires is { IsWatch drives.now self.old }
        ensures is { IsWatch (slice_set drives.now pin drive) self.new }
        ensures rest { self.new ≡ record self.old { differing = self.new.differing } }
    {
        let _pins = self.watched.len(); // which a number holds
        if self.watched[pin] {
            let kept = self.kept[pin];
            self.differing = self.differing - unlike(kept, drives[pin]) + unlike(kept, drive);
        }
    }

    /// Keeps what the watched pins drive, and tells whether they drove the same when that was kept last.
    #[inline(always)]
    pub(crate) fn keep(&mut self, drives: &[Drive]) -> bool
        requires { IsWatch drives.now self.old }
        ensures is { IsWatch drives.now self.new }
        ensures watched { self.new.watched.items ≡ self.old.watched.items }
        ensures kept { flagged self.old.watched.items self.new.kept.items ≡ flagged self.old.watched.items drives.now }
        ensures same { result ≡ same_list same_drive (flagged self.old.watched.items self.old.kept.items) (flagged self.old.watched.items drives.now) }
    {
        if self.differing == 0 {
            return true;
        }
        self.keep_all(drives);
        false
    }

    /// Keeps what all pins drive.
    pub(crate) fn keep_all(&mut self, drives: &[Drive])
        requires flags { length self.old.watched.items ≡ length drives.now }
        requires long { length self.old.kept.items ≡ length drives.now }
        ensures is { IsWatch drives.now self.new }
        ensures kept { self.new.kept.items ≡ drives.now }
        ensures watched { self.new.watched.items ≡ self.old.watched.items }
    {
        self.kept.copy_from_slice(drives);
        self.differing = 0;
    }
}
