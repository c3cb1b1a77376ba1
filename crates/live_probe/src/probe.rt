//! The levels of the cycle that comes next.
ghost use Rattle.std.specs.Prelude.{◌≡◌, IfOk, length, false};
ghost use Rattle.text_model.specs.Wave.{shown_value};
ghost use Rattle.board_model.specs.Fits.{IsWiring};
ghost use Rattle.vcd_text.specs.Variables.{source_of};
ghost use Rattle.live_probe.specs.Levels.{levels_in, drives_in};

use crate::copying::copied;
use board_live::LiveBoard;
use net_resolve::Nets;
use part_law::Part;
use sim_base::{Drive, Level, OutOfMemory, Wiring};
use std::alloc::Global;
use std::marker::Model;
use vcd_text::{Source, value_of};

/// Nets beside those of a live board, which are told what its parts drive and connect before the board reads that itself.
#[derive(Drop)]
pub struct Probe {
    nets: Nets,
}

impl Model for Probe {
    ghost use Rattle.net_resolve.specs.NetsView.{NetsView};

    ghost Value = { NetsView };

    ghost view = { λ p. p.nets };
}

/// Tells nets what each pin drives.
fn set_drives(nets: &mut Nets, drives: &[Drive])
    requires { length drives.now ≡ length nets.old.wiring.net_of }
    ensures { nets.new ≡ record nets.old { drives = drives.now } }
{
    for pin in 0..nets.drives().len() {
        nets.set_drive(pin, drives[pin]);
    }
}

/// Tells nets which contacts are closed.
fn set_contacts(nets: &mut Nets, closed: &[bool])
    requires { length closed.now ≡ length nets.old.wiring.contacts }
    ensures { nets.new ≡ record nets.old { closed = closed.now } }
{
    for contact in 0..nets.closed().len() {
        nets.set_contact(contact, closed[contact]);
    }
}

impl Probe {
    /// A probe for boards with this wiring.
    pub fn new(alloc: Global, wiring: &Wiring) -> Result<Probe, OutOfMemory>
        requires { IsWiring wiring.now }
        ensures { IfOk result (λ p. p.wiring ≡ wiring.now) }
    {
        Ok(Probe {
            nets: Nets::new(alloc, copied(alloc, wiring)?)?,
        })
    }

    /// Looks at what the parts drive and connect in the live board's cycle.
    pub fn look<P: Part>(&mut self, live: &LiveBoard<P>)
        requires alive { live.now.over ≡ false }
        requires wiring { self.old.wiring ≡ live.now.wiring }
        ensures wiring { self.new.wiring ≡ self.old.wiring }
        ensures levels { self.new.levels ≡ levels_in P.Part live.now live.now.cycle }
        ensures drives { self.new.drives ≡ drives_in P.Part live.now live.now.cycle }
    {
        set_drives(&mut self.nets, live.drives());
        set_contacts(&mut self.nets, live.closed());
        self.nets.resolve_marked();
    }

    /// The levels of the nets in the cycle that was looked at.
    pub fn levels(&self) -> &[Level]
        ensures { result.now ≡ self.now.levels }
    {
        self.nets.levels()
    }

    /// What each pin drives in it.
    pub fn drives(&self) -> &[Drive]
        ensures { result.now ≡ self.now.drives }
    {
        self.nets.drives()
    }

    /// The value of a variable that shows this, in it.
    pub fn value(&self, shows: Source) -> u8
        ensures { result ≡ shown_value self.now.levels self.now.drives (source_of shows) }
    {
        value_of(shows, self.nets.levels(), self.nets.drives())
    }
}
