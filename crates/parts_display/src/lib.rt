//! Displays, as behaviours: a seven-segment digit and the text display LCD 1602, wired in parallel or by I2C (Wokwi
//! documentation, "wokwi-7segment" and "wokwi-lcd1602"; Hitachi, HD44780U data sheet; NXP, PCF8574 data sheet).
//! Each is exactly its kind in `specs/`. No call takes memory, and none fails.
#![tactic(auto)]

mod expander;
mod halves;
mod lcd;
mod screen;
mod seven;

pub use expander::Expander;
pub use lcd::{Bus, Lcd};
pub use screen::Screen;
pub use seven::Seven;
