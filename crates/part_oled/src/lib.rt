//! A small OLED of 128 by 64 dots on I2C, as a behaviour (Wokwi documentation, "board-ssd1306"; Solomon Systech, SSD1306
//! data sheet). It is exactly its kind in `specs/`. No call allocates, and none fails.
#![tactic(auto)]

mod oled;
mod picture;
mod stream;

pub use oled::Oled;
pub use picture::{Addressing, Picture, Waiting, Window};
pub use stream::Stream;
