//! The nets of a board.
ghost use Rattle.std.specs.Prelude.{◌≡◌, ℕ, ◌<◌, [], length, map, replicate, Some, eqb, true, false, IfOk};
ghost use Rattle.std.specs.Prelude.{slice_get, slice_set};
ghost use Rattle.std.specs.List.{IsDistinct};
ghost use Rattle.board_model.specs.Fits.{IsWiring};
ghost use Rattle.board_model.specs.Board.{level_at};
ghost use Rattle.board_model.specs.Rows.{same_list, same_drive};
ghost use Rattle.net_resolve.specs.NetsView.{NetsView, AreChanged, levels_by};
ghost use Rattle.net_resolve.specs.Marked.{has};
ghost use Rattle.net_resolve.specs.Subcircuits.{IsCut, AreSubcircuits, whole_of};
ghost use Rattle.net_resolve.specs.Watched.{flagged};

use crate::cut::{cut_all, sort};
use crate::marks::{Marks, Numbers};
use crate::resolution::{is_same_drive, is_same_flag};
use crate::room::{all_z, no_drives, no_flags};
use crate::shown::Shown;
use crate::subcircuit::Subcircuit;
use crate::watch::Watch;
use sim_base::{Drive, Level, OutOfMemory, Wiring};
use std::alloc::Global;
use std::marker::Model;

/// The nets of a board, with what joins them, what drives them and the levels that were resolved
/// last. They are cut into subcircuits, and only those are resolved again in which the drive of a
/// pin or a contact changed.
#[derive(Drop)]
pub struct Nets {
    wiring: Wiring,
    /// The number of each net's subcircuit.
    labels: Vec<u16>,
    subcircuits: Vec<Subcircuit>,
    /// What each pin drives and which contacts are closed.
    drives: Vec<Drive>,
    closed: Vec<bool>,
    /// The subcircuits that are to be resolved again.
    marks: Marks,
    /// The levels, and the nets whose levels the last resolution changed.
    shown: Shown,
    watch: Watch,
}

impl Model for Nets {
    ghost use Rattle.std.specs.Prelude.{◌≡◌, length, vec_len};
    ghost use Rattle.net_resolve.specs.NetsView.{NetsView};
    ghost use Rattle.net_resolve.specs.Subcircuits.{IsCut, AreSubcircuits, AreRight, whole_of};
    ghost use Rattle.net_resolve.specs.Shown.{AreShown};
    ghost use Rattle.net_resolve.specs.Watched.{IsWatch, flagged};

    ghost Value = { NetsView };

    ghost view = { λ a. record {
      wiring = a.wiring;
      drives = a.drives.items;
      closed = a.closed.items;
      levels = a.shown.levels.items;
      changed = a.shown.changed.marked;
      watched = a.watch.watched.items;
      kept = flagged a.watch.watched.items a.watch.kept.items;
    } };

    ghost invariant = { λ a. record {
      cut : IsCut (whole_of a.wiring) a.labels.items;
      subcircuits : AreSubcircuits (whole_of a.wiring) a.labels.items a.subcircuits.items;
      right : AreRight (whole_of a.wiring) a.labels.items a.marks.marked a.closed.items a.drives.items a.shown.levels.items;
      subcircuits_long : length a.subcircuits.items ≡ a.wiring.nets;
      marks_room : a.marks.room ≡ a.wiring.nets;
      levels_long : vec_len a.shown.levels ≡ a.wiring.nets;
      drives_long : vec_len a.drives ≡ length a.wiring.net_of;
      closed_long : vec_len a.closed ≡ length a.wiring.contacts;
      shown : AreShown a.wiring.net_of a.shown;
      watch : IsWatch a.drives.items a.watch;
    } };
}

/// The number of each net's subcircuit, and the subcircuits.
fn cut_wiring(alloc: Global, wiring: &Wiring) -> Result<(Vec<u16>, Vec<Subcircuit>), OutOfMemory>
    requires { IsWiring wiring.now }
    ensures cut { IfOk result (λ v. IsCut (whole_of wiring.now) v.0.items) }
    ensures long { IfOk result (λ v. length v.1.items ≡ wiring.now.nets) }
    ensures subcircuits { IfOk result (λ v. AreSubcircuits (whole_of wiring.now) v.0.items v.1.items) }
{
    let sorted = sort(alloc, wiring)?;
    let labels = Vec::from_slice(alloc, sorted.labels.as_slice())?;
    let subcircuits = cut_all(alloc, wiring, &sorted)?;
    Ok((labels, subcircuits))
}

impl Nets {
    /// The nets of a wiring, with every drive and every level Z and all contacts open. All are to be
    /// resolved, and no pin is watched.
    pub fn new(alloc: Global, wiring: Wiring) -> Result<Nets, OutOfMemory>
        requires { IsWiring wiring }
        ensures { IfOk result (λ n. n ≡ record {
          wiring = wiring;
          drives = replicate (length wiring.net_of) Drive.Z;
          closed = replicate (length wiring.contacts) false;
          levels = replicate wiring.nets Level.Z;
          changed = [];
          watched = replicate (length wiring.net_of) false;
          kept = [];
        }) }
    {
        let marks = Marks::all(alloc, wiring.nets)?;
        let changed = Numbers::new(alloc, wiring.nets)?;
        let (labels, subcircuits) = cut_wiring(alloc, &wiring)?;
        let drives = no_drives(alloc, wiring.net_of.len())?;
        let closed = no_flags(alloc, wiring.contacts.len())?;
        let levels = all_z(alloc, wiring.nets as usize)?;
        let pin_levels = all_z(alloc, wiring.net_of.len())?;
        let watched = no_flags(alloc, wiring.net_of.len())?;
        let kept = no_drives(alloc, wiring.net_of.len())?;
        Ok(Nets {
            wiring,
            labels,
            subcircuits,
            drives,
            closed,
            marks,
            shown: Shown {
                levels,
                pin_levels,
                changed,
            },
            watch: Watch {
                watched,
                kept,
                differing: 0,
            },
        })
    }

    /// From now on the pins with these flags are watched, and no others; what they drive is kept.
    pub fn watch(&mut self, pins: Vec<bool>)
        requires { length pins.items ≡ length self.old.wiring.net_of }
        ensures { self.new ≡ record self.old { watched = pins.items; kept = flagged pins.items self.old.drives } }
    {
        self.watch.watched = pins;
        self.watch.keep_all(&self.drives);
    }

    /// Sets what a pin drives. If it drove something else, marks its subcircuit. Levels follow with
    /// `resolve_marked`.
    pub fn set_drive(&mut self, pin: usize, drive: Drive)
        requires { pin < length self.old.wiring.net_of }
        ensures { self.new ≡ record self.old { drives = slice_set self.old.drives pin drive } }
    {
        if !is_same_drive(self.drives[pin], drive) {
            self.watch.note(pin, drive, &self.drives);
            self.drives[pin] = drive;
            self.marks
                .mark(self.labels[self.wiring.net_of.as_slice()[pin] as usize]);
        }
    }

    /// Sets whether a contact is closed, and marks its subcircuit if that changed. Levels follow with
    /// `resolve_marked`.
    pub fn set_contact(&mut self, contact: usize, closed: bool)
        requires { contact < length self.old.wiring.contacts }
        ensures { self.new ≡ record self.old { closed = slice_set self.old.closed contact closed } }
    {
        if !is_same_flag(self.closed[contact], closed) {
            self.closed[contact] = closed;
            let (first, _) = self.wiring.contacts.as_slice()[contact];
            self.marks.mark(self.labels[first as usize]);
        }
    }

    /// Finds the levels by what the pins drive and which contacts are closed. Only the subcircuits in
    /// which one of these was set to something else are looked at.
    #[inline(always)]
    pub fn resolve_marked(&mut self)
        ensures levels { self.new ≡ record self.old {
          levels = levels_by self.old.wiring self.old.closed self.old.drives;
          changed = self.new.changed;
        } }
        ensures changed { AreChanged self.old.levels self.new.levels self.new.changed }
    {
        self.shown.changed.clear();
        while let Some(q) = self.marks.take() {
            self.subcircuits[q as usize].resolve(
                &self.drives,
                &self.closed,
                self.wiring.net_of.as_slice(),
                &mut self.shown,
            );
        }
    }

    /// Keeps what the watched pins drive, and tells whether that is what was kept of them before.
    #[inline]
    pub fn keep_watched(&mut self) -> bool
        ensures kept { self.new ≡ record self.old { kept = flagged self.old.watched self.old.drives } }
        ensures same { result ≡ same_list same_drive self.old.kept (flagged self.old.watched self.old.drives) }
    {
        self.watch.keep(&self.drives)
    }

    /// What joins the nets.
    pub fn wiring(&self) -> &Wiring
        ensures { result.now ≡ self.now.wiring }
    {
        &self.wiring
    }

    /// What each pin drives.
    pub fn drives(&self) -> &[Drive]
        ensures drives { result.now ≡ self.now.drives }
        ensures pins { length result.now ≡ length self.now.wiring.net_of }
    {
        &self.drives
    }

    /// Which contacts are closed.
    pub fn closed(&self) -> &[bool]
        ensures closed { result.now ≡ self.now.closed }
        ensures contacts { length result.now ≡ length self.now.wiring.contacts }
    {
        &self.closed
    }

    /// The level of a net.
    pub fn level(&self, net: u16) -> Level
        requires { net < self.now.wiring.nets }
        ensures { slice_get self.now.levels net ≡ Some result }
    {
        self.shown.levels[net as usize]
    }

    /// The levels of all nets.
    pub fn levels(&self) -> &[Level]
        ensures levels { result.now ≡ self.now.levels }
        ensures nets { length result.now ≡ self.now.wiring.nets }
    {
        &self.shown.levels
    }

    /// The level of each pin's net.
    pub fn pin_levels(&self) -> &[Level]
        ensures levels { result.now ≡ map (level_at self.now.levels) self.now.wiring.net_of }
        ensures pins { length result.now ≡ length self.now.wiring.net_of }
    {
        &self.shown.pin_levels
    }

    /// The nets whose levels the last resolution changed.
    pub fn changed(&self) -> &[u16]
        ensures changed { result.now ≡ self.now.changed }
        ensures once { IsDistinct eqb result.now }
        ensures nets { (n : ℕ) → has result.now n ≡ true → n < self.now.wiring.nets }
    {
        self.shown.changed.items()
    }
}

fn are_nets(nets: &[u16], count: u16) -> bool
    ensures valid { result ≡ true → (k n : ℕ) → slice_get nets.now k ≡ Some n → n < count }
    ensures invalid { result ≡ false → ((k n : ℕ) → slice_get nets.now k ≡ Some n → n < count) → ⊥ }
{
    for net in nets {
        if *net >= count {
            return false;
        }
    }
    true
}

fn are_pairs(pairs: &[(u16, u16)], count: u16) -> bool
    ensures valid { result ≡ true → (k : ℕ) (c : ℕ × ℕ) → slice_get pairs.now k ≡ Some c → (c.0 < count) × (c.1 < count) }
    ensures invalid { result ≡ false → ((k : ℕ) (c : ℕ × ℕ) → slice_get pairs.now k ≡ Some c → (c.0 < count) × (c.1 < count)) → ⊥ }
{
    for pair in pairs {
        if pair.0 >= count || pair.1 >= count {
            return false;
        }
    }
    true
}

/// Whether each net number in a wiring is below its count of nets.
pub fn has_valid_nets(wiring: &Wiring) -> bool
    ensures valid { result ≡ true → IsWiring wiring.now }
    ensures invalid { result ≡ false → IsWiring wiring.now → ⊥ }
{
    are_nets(wiring.net_of.as_slice(), wiring.nets)
        & are_pairs(wiring.contacts.as_slice(), wiring.nets)
        & are_pairs(wiring.resistors.as_slice(), wiring.nets)
}
