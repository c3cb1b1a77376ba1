//! What firmware can write that is left out.
ghost use Rattle.std.specs.Prelude.{◌≡◌, ◌≤◌, length};
ghost use Rattle.avr_omit.specs.Omissions.{is_within, is_row, left_out, left_out_beside, left_out_from, left_out_too};
ghost use Rattle.avr_omit.specs.Kept.{place_of};
ghost use Rattle.avr_omit.specs.Names.{all, name_of};

// The lowest address that the table has.
const GTCCR: u8 = 0x43;

/// What the ATmega328P does at a write and this Uno does not.
#[derive(Clone, Copy)]
pub enum Omission {
    /// TSM
    HeldPrescaler,
    /// COMnA 1 in a PWM mode that toggles
    ToggleInPwm,
    /// CSn 6 and 7: a timer counts edges of T0 or T1
    PinClock,
    /// FOCnA, FOCnB
    ForcedMatch,
    /// SPE without MSTR
    SpiSlave,
    /// the analog comparator
    Comparator,
    /// PUD
    PullUpDisable,
    /// IVSEL
    VectorPlace,
    /// SPM
    FlashWrite,
    /// the system clock's prescaler
    ClockPrescaler,
    /// PRR
    PowerReduction,
    /// OSCCAL
    OscillatorTrim,
    /// ADTS other than free running
    AdcTrigger,
    /// a channel that is not A0 to A5 and not 0 V
    AdcChannel,
    /// 1.1 V
    AdcReference,
    /// DIDR0, DIDR1
    InputDisable,
    /// ICES1, ICNC1
    InputCapture,
    /// AS2, EXCLK
    Crystal,
    /// an own address on the bus
    TwiSlave,
    /// MPCM0
    AddressedFrames,
    /// UCSZ02
    NineBits,
    /// UMSEL0: synchronous, or as an SPI master
    ClockedUsart,
    /// UPM0 1
    ReservedParity,
}

// Whether the bits of a mask have a value from the least to the greatest.
fn is_within(mask: u8, least: u8, greatest: u8, value: u8) -> bool
    ensures { result ≡ is_within mask least greatest value }
{
    let bits = value & mask;
    least <= bits && bits <= greatest
}

// Whether a write is one of the row with this address, mask, least and greatest value.
fn is_row(row: u8, mask: u8, least: u8, greatest: u8, address: u8, value: u8) -> bool
    ensures { result ≡ is_row row mask least greatest address value }
{
    address == row && is_within(mask, least, greatest, value)
}

impl Omission {
    /// All of them, in the order of their registers' addresses.
    pub fn all() -> &'static [Omission]
        ensures { result.now ≡ all }
    {
        &[
            Omission::HeldPrescaler,
            Omission::ToggleInPwm,
            Omission::PinClock,
            Omission::ForcedMatch,
            Omission::SpiSlave,
            Omission::Comparator,
            Omission::PullUpDisable,
            Omission::VectorPlace,
            Omission::FlashWrite,
            Omission::ClockPrescaler,
            Omission::PowerReduction,
            Omission::OscillatorTrim,
            Omission::AdcTrigger,
            Omission::AdcChannel,
            Omission::AdcReference,
            Omission::InputDisable,
            Omission::InputCapture,
            Omission::Crystal,
            Omission::TwiSlave,
            Omission::AddressedFrames,
            Omission::NineBits,
            Omission::ClockedUsart,
            Omission::ReservedParity,
        ]
    }

    /// Its place among all of them.
    pub fn place(self) -> u8
        ensures { result ≡ place_of self }
    {
        self as u8
    }

    /// Its name.
    pub fn name(self) -> &'static str
        ensures text { result.now ≡ name_of self }
        ensures short { length result.now ≤ 20 }
    {
        match self {
            Omission::HeldPrescaler => "HeldPrescaler",
            Omission::ToggleInPwm => "ToggleInPwm",
            Omission::PinClock => "PinClock",
            Omission::ForcedMatch => "ForcedMatch",
            Omission::SpiSlave => "SpiSlave",
            Omission::Comparator => "Comparator",
            Omission::PullUpDisable => "PullUpDisable",
            Omission::VectorPlace => "VectorPlace",
            Omission::FlashWrite => "FlashWrite",
            Omission::ClockPrescaler => "ClockPrescaler",
            Omission::PowerReduction => "PowerReduction",
            Omission::OscillatorTrim => "OscillatorTrim",
            Omission::AdcTrigger => "AdcTrigger",
            Omission::AdcChannel => "AdcChannel",
            Omission::AdcReference => "AdcReference",
            Omission::InputDisable => "InputDisable",
            Omission::InputCapture => "InputCapture",
            Omission::Crystal => "Crystal",
            Omission::TwiSlave => "TwiSlave",
            Omission::AddressedFrames => "AddressedFrames",
            Omission::NineBits => "NineBits",
            Omission::ClockedUsart => "ClockedUsart",
            Omission::ReservedParity => "ReservedParity",
        }
    }
}

/// What a write asks for that is not there, the first of several.
#[inline]
pub fn left_out(address: u8, value: u8) -> Option<Omission>
    ensures { result ≡ left_out address value }
{
    if address < GTCCR {
        None
    } else {
        left_out_from(address, value)
    }
}

/// What else it asks for: that again where it asks for one thing alone.
#[inline]
pub fn left_out_beside(address: u8, value: u8) -> Option<Omission>
    ensures { result ≡ left_out_beside address value }
{
    if address < GTCCR {
        None
    } else {
        left_out_too(address, value)
    }
}

fn left_out_too(address: u8, value: u8) -> Option<Omission>
    ensures { result ≡ left_out_too address value }
{
    if is_row(0x45, 0xC0, 0x40, 0xC0, address, value) {
        Some(Omission::ForcedMatch)
    } else if is_row(0x55, 0x02, 0x02, 0x02, address, value) {
        Some(Omission::VectorPlace)
    } else if is_row(0x7B, 0x40, 0x40, 0x40, address, value) {
        Some(Omission::Comparator)
    } else if is_row(0x7C, 0xC0, 0x80, 0xC0, address, value) {
        Some(Omission::AdcReference)
    } else if is_row(0x81, 0xC0, 0x40, 0xC0, address, value) {
        Some(Omission::InputCapture)
    } else if is_row(0xC2, 0x30, 0x10, 0x10, address, value) {
        Some(Omission::ReservedParity)
    } else {
        None
    }
}

fn left_out_from(address: u8, value: u8) -> Option<Omission>
    ensures { result ≡ left_out_from address value }
{
    if is_row(0x43, 0x80, 0x80, 0x80, address, value) {
        Some(Omission::HeldPrescaler)
    } else if is_row(0x44, 0xC3, 0x41, 0x41, address, value) {
        Some(Omission::ToggleInPwm)
    } else if is_row(0x44, 0xC3, 0x43, 0x43, address, value) {
        Some(Omission::ToggleInPwm)
    } else if is_row(0x45, 0x07, 0x06, 0x07, address, value) {
        Some(Omission::PinClock)
    } else if is_row(0x45, 0xC0, 0x40, 0xC0, address, value) {
        Some(Omission::ForcedMatch)
    } else if is_row(0x4C, 0x50, 0x40, 0x40, address, value) {
        Some(Omission::SpiSlave)
    } else if is_row(0x50, 0x80, 0x00, 0x00, address, value) {
        Some(Omission::Comparator)
    } else if is_row(0x55, 0x10, 0x10, 0x10, address, value) {
        Some(Omission::PullUpDisable)
    } else if is_row(0x55, 0x02, 0x02, 0x02, address, value) {
        Some(Omission::VectorPlace)
    } else if is_row(0x57, 0x01, 0x01, 0x01, address, value) {
        Some(Omission::FlashWrite)
    } else if is_row(0x61, 0x8F, 0x01, 0x08, address, value) {
        Some(Omission::ClockPrescaler)
    } else if is_row(0x64, 0xFF, 0x01, 0xFF, address, value) {
        Some(Omission::PowerReduction)
    } else if is_row(0x66, 0x00, 0x00, 0x00, address, value) {
        Some(Omission::OscillatorTrim)
    } else if is_row(0x7B, 0x07, 0x01, 0x07, address, value) {
        Some(Omission::AdcTrigger)
    } else if is_row(0x7B, 0x40, 0x40, 0x40, address, value) {
        Some(Omission::Comparator)
    } else if is_row(0x7C, 0x0F, 0x06, 0x0E, address, value) {
        Some(Omission::AdcChannel)
    } else if is_row(0x7C, 0xC0, 0x80, 0xC0, address, value) {
        Some(Omission::AdcReference)
    } else if is_row(0x7E, 0x3F, 0x01, 0x3F, address, value) {
        Some(Omission::InputDisable)
    } else if is_row(0x7F, 0x03, 0x01, 0x03, address, value) {
        Some(Omission::InputDisable)
    } else if is_row(0x80, 0xC3, 0x41, 0x43, address, value) {
        Some(Omission::ToggleInPwm)
    } else if is_row(0x81, 0x07, 0x06, 0x07, address, value) {
        Some(Omission::PinClock)
    } else if is_row(0x81, 0xC0, 0x40, 0xC0, address, value) {
        Some(Omission::InputCapture)
    } else if is_row(0x82, 0xC0, 0x40, 0xC0, address, value) {
        Some(Omission::ForcedMatch)
    } else if is_row(0xB0, 0xC3, 0x41, 0x41, address, value) {
        Some(Omission::ToggleInPwm)
    } else if is_row(0xB0, 0xC3, 0x43, 0x43, address, value) {
        Some(Omission::ToggleInPwm)
    } else if is_row(0xB1, 0xC0, 0x40, 0xC0, address, value) {
        Some(Omission::ForcedMatch)
    } else if is_row(0xB6, 0x60, 0x20, 0x60, address, value) {
        Some(Omission::Crystal)
    } else if is_row(0xBA, 0xFF, 0x01, 0xFF, address, value) {
        Some(Omission::TwiSlave)
    } else if is_row(0xBD, 0xFE, 0x02, 0xFE, address, value) {
        Some(Omission::TwiSlave)
    } else if is_row(0xC0, 0x01, 0x01, 0x01, address, value) {
        Some(Omission::AddressedFrames)
    } else if is_row(0xC1, 0x04, 0x04, 0x04, address, value) {
        Some(Omission::NineBits)
    } else if is_row(0xC2, 0xC0, 0x40, 0xC0, address, value) {
        Some(Omission::ClockedUsart)
    } else if is_row(0xC2, 0x30, 0x10, 0x10, address, value) {
        Some(Omission::ReservedParity)
    } else {
        None
    }
}
