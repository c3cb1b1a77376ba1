//! The modes (data sheet, "Waveform Generation Mode", "Compare Output Mode").
ghost use Rattle.std.specs.Prelude.{◌≡◌};
ghost use Rattle.avr_timer.specs.Modes.{row, com_of, is_buffered, is_icr, is_phase, mode_by};
ghost use Rattle.avr_timer.specs.Counted.{IsRow, IsRowOf, FixedFits, IsMode};

/// How the counter goes.
#[derive(Clone, Copy, Debug, PartialEq, Eq)]
pub enum Kind {
    /// Up to the greatest count.
    Normal,
    /// Up to TOP: clear timer on compare match.
    Ctc,
    /// Up to TOP: fast PWM.
    Fast,
    /// Up to TOP and back: phase correct PWM.
    Phase,
    /// The same, with new OCR values at 0: phase and frequency correct PWM.
    PhaseFrequency,
}

/// What TOP is: OCRnA, ICRn or a number of the mode.
#[derive(Clone, Copy, Debug, PartialEq, Eq)]
pub enum Top {
    Ocr,
    Icr,
    Fixed(u16),
}

/// What a match does to the pin, by COMnx1:0 0 to 3 outside of PWM.
#[derive(Clone, Copy, Debug, PartialEq, Eq)]
pub enum Com {
    Off,
    Toggle,
    Clear,
    Set,
}

/// What the control registers choose, and the greatest count: 0xFF or 0xFFFF.
#[derive(Clone, Copy, Debug, PartialEq, Eq)]
pub struct Mode {
    pub greatest: u16,
    pub kind: Kind,
    pub top: Top,
    pub com_a: Com,
    pub com_b: Com,
}

/// A row of a timer's table of modes.
#[derive(Clone, Copy, Debug, PartialEq, Eq)]
pub struct Row {
    pub kind: Kind,
    pub top: Top,
}

impl Row {
    /// A row for a counter with this greatest count.
    pub fn new(greatest: u16, kind: Kind, top: Top) -> Row
        requires row { IsRow kind top greatest }
        requires fixed { FixedFits top greatest }
        ensures value { result ≡ row kind top }
        ensures row { IsRowOf greatest result }
    {
        Row { kind, top }
    }
}

/// The mode by the row that the bits WGM choose, and by the bits COM of TCCRnA.
pub fn mode_by(greatest: u16, chosen: Row, tccra: u8) -> Mode
    requires { IsRowOf greatest chosen }
    ensures value { result ≡ mode_by greatest chosen tccra }
    ensures mode { IsMode result }
{
    Mode {
        greatest,
        kind: chosen.kind,
        top: chosen.top,
        com_a: com_of(tccra / 64),
        com_b: com_of(tccra / 16 % 4),
    }
}

// What COMnx1:0 choose.
fn com_of(bits: u8) -> Com
    ensures { result ≡ com_of bits }
{
    match bits {
        1 => Com::Toggle,
        2 => Com::Clear,
        3 => Com::Set,
        _ => Com::Off,
    }
}

/// Whether a written OCR waits.
pub(crate) fn is_buffered(kind: Kind) -> bool
    ensures { result ≡ is_buffered kind }
{
    match kind {
        Kind::Normal | Kind::Ctc => false,
        Kind::Fast | Kind::Phase | Kind::PhaseFrequency => true,
    }
}

/// Whether the counter goes back from TOP.
pub(crate) fn is_phase(kind: Kind) -> bool
    ensures { result ≡ is_phase kind }
{
    match kind {
        Kind::Normal | Kind::Ctc | Kind::Fast => false,
        Kind::Phase | Kind::PhaseFrequency => true,
    }
}

pub(crate) fn is_icr(top: Top) -> bool
    ensures { result ≡ is_icr top }
{
    match top {
        Top::Icr => true,
        Top::Ocr | Top::Fixed(_) => false,
    }
}
