//! Text whose bytes are UTF-8.
ghost use Rattle.std.specs.Prelude.{◌≡◌, IfOk, MatchOption, string_bytes};
ghost use Rattle.std.specs.Str.{IsUtf8};

use crate::fault::OutOfMemory;
use std::alloc::Global;
use std::marker::Model;

/// UTF-8, seen as its bytes.
#[derive(Drop)]
pub struct Text {
    text: String,
}

impl Model for Text {
    ghost use Rattle.std.specs.Prelude.{List, ℕ, string_bytes};

    ghost Value = { List ℕ };

    ghost view = { λ a. string_bytes a.text };
}

impl Text {
    /// The bytes as text; None exactly where they are not UTF-8.
    pub fn read(alloc: Global, bytes: &[u8]) -> Result<Option<Text>, OutOfMemory>
        ensures { IfOk result (λ text. MatchOption text (¬ (IsUtf8 bytes.now)) (λ t. (t ≡ bytes.now) × IsUtf8 bytes.now)) }
    {
        match std::str::from_utf8(bytes) {
            Ok(text) => Ok(Some(Text {
                text: String::from_str(alloc, text)?,
            })),
            Err(_) => Ok(None),
        }
    }

    /// A copy of a text.
    pub fn from_str(alloc: Global, text: &str) -> Result<Text, OutOfMemory>
        ensures { IfOk result (λ t. t ≡ text.now) }
    {
        Ok(Text {
            text: String::from_str(alloc, text)?,
        })
    }

    pub fn from_string(text: String) -> Text
        ensures { result ≡ string_bytes text }
    {
        Text { text }
    }

    /// The text of bytes that are known to be UTF-8.
    pub fn from_utf8(bytes: Vec<u8>) -> Text
        requires { IsUtf8 bytes.items }
        ensures { result ≡ bytes.items }
    {
        match String::from_utf8(bytes) {
            Ok(text) => Text { text },
            Err(_) => unreachable!(),
        }
    }

    pub fn as_str(&self) -> &str
        ensures { result.now ≡ self.now }
    {
        self.text.as_str()
    }
}
