//! The two lines of the bus.
ghost use Rattle.std.specs.Prelude.{◌≡◌, ◌&&◌, not};
ghost use Rattle.slave_i2c.specs.Lines.{is_start, is_stop, rises, falls};

/// What SCL and SDA read.
#[derive(Clone, Copy, PartialEq, Eq, Debug)]
pub struct Lines {
    pub scl: bool,
    pub sda: bool,
}

impl Lines {
    // Whether these lines, behind those of the cycle before, are a START.
    pub(crate) fn is_start(self, before: Lines) -> bool
        ensures { result ≡ is_start before self }
    {
        before.scl && (self.scl && (before.sda && !self.sda))
    }

    pub(crate) fn is_stop(self, before: Lines) -> bool
        ensures { result ≡ is_stop before self }
    {
        before.scl && (self.scl && (!before.sda && self.sda))
    }

    pub(crate) fn rises(self, before: Lines) -> bool
        ensures { result ≡ rises before self }
    {
        self.scl && !before.scl
    }

    pub(crate) fn falls(self, before: Lines) -> bool
        ensures { result ≡ falls before self }
    {
        before.scl && !self.scl
    }
}
