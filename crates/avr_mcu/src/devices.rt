//! The units of the microcontroller: one more is one more `Both`, here, among those that go on in power-down or those whose
//! clock stops in it, and in `specs/Devices.antt`.
use avr_adc::Adc;
use avr_keep::Keep;
use avr_ports::Ports;
use avr_spi::Spi;
use avr_timer8::{Timer0, Timer2};
use avr_timer16::Timer16;
use avr_twi::Twi;
use avr_unit::{Both, Late, Powered, Seldom};
use avr_usart::Usart;

pub(crate) type Devices = Powered<Awake, Clocked>;

/// The ports, which firmware uses most, and the watchdog with the EEPROM go on in power-down.
type Awake = Both<Ports, Late<Keep>>;

/// Of the others the SPI may have an event in each cycle.
type Clocked = Both<
    Spi,
    Seldom<Both<Timer0, Both<Timer16, Both<Timer2, Both<Adc, Both<Usart, Late<Twi>>>>>>>,
>;
