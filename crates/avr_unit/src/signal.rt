//! What reaches units beside the bus and the vectors.

/// WDR, entering power-down, and the cycle after a reset of the watchdog (data sheet, "Power Management and Sleep Modes",
/// "Watchdog System Reset").
#[derive(Clone, Copy, Debug, PartialEq, Eq)]
pub enum Signal {
    Wdr,
    Doze,
    Restart,
}
