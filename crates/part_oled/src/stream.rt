//! The bytes of one write.
ghost use Rattle.std.specs.Prelude.{◌≡◌};
ghost use Rattle.part_oled.specs.Stream.{controlled, with_byte, put, after};

use crate::picture::Picture;
use part_reactive::bit;

/// What the next byte of a write is; the flag tells data from commands.
#[derive(Clone, Copy)]
pub enum Stream {
    /// A control byte.
    Control,
    /// One byte, before the next control byte.
    One(bool),
    /// This byte and all others of the write.
    All(bool),
}

fn controlled(byte: u8) -> Stream
    ensures { result ≡ controlled byte }
{
    let is_data = bit(6, byte);
    if bit(7, byte) {
        Stream::One(is_data)
    } else {
        Stream::All(is_data)
    }
}

fn give(picture: &mut Picture, is_data: bool, byte: u8)
    ensures { picture.new ≡ with_byte picture.old is_data byte }
{
    if is_data {
        picture.write(byte);
    } else {
        picture.command(byte);
    }
}

impl Stream {
    /// Takes a byte.
    pub(crate) fn take(&mut self, picture: &mut Picture, byte: u8)
        ensures picture { picture.new ≡ put picture.old self.old byte }
        ensures stream { self.new ≡ after self.old byte }
    {
        match *self {
            Stream::Control => *self = controlled(byte),
            Stream::One(is_data) => {
                give(picture, is_data, byte);
                *self = Stream::Control;
            }
            Stream::All(is_data) => give(picture, is_data, byte),
        }
    }
}
