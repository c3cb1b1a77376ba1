//! Names of parts, pins and chips.
ghost use Rattle.std.specs.Prelude.{◌≡◌, ◌≤◌, true, length, if◌then◌else◌, Some, None, List, ℕ};
ghost use Rattle.std.specs.List.{list_all};
ghost use Rattle.std.specs.Option.{option_map};
ghost use Rattle.sim_base.specs.Names.{is_name, is_name_byte};

use arrayvec::ArrayVec;
use std::marker::Model;

/// 1 to 64 printable ASCII characters other than the space and the colon.
#[derive(Drop)]
pub struct Name {
    bytes: ArrayVec<u8, 64>,
}

impl Model for Name {
    ghost use Rattle.std.specs.Prelude.{List, ℕ, ◌≡◌, true};
    ghost use Rattle.sim_base.specs.Names.{is_name};

    ghost Value = { List ℕ };

    ghost view = { λ a. a.bytes.items };

    ghost invariant = { λ a. is_name a.bytes.items ≡ true };
}

fn are_name_bytes(bytes: &[u8]) -> bool
    ensures { result ≡ list_all is_name_byte bytes.now }
{
    bytes.iter().all(|b| 0x21 <= *b && *b <= 0x7E && *b != b':')
}

fn copied(bytes: &[u8]) -> ArrayVec<u8, 64>
    requires { length bytes.now ≤ 64 }
    ensures { result.items ≡ bytes.now }
{
    let mut copy = ArrayVec::new();
    for b in bytes {
        copy.push(*b);
    }
    copy
}

impl Name {
    /// The text as a name; None exactly where it is empty, longer than 64 bytes or has another byte.
    pub fn read(text: &str) -> Option<Name>
        ensures { result ≡ (if is_name text.now then Some text.now else None) }
    {
        let bytes = text.as_bytes();
        if bytes.is_empty() || bytes.len() > 64 || !are_name_bytes(bytes) {
            return None;
        }
        Some(Name {
            bytes: copied(bytes),
        })
    }

    /// The same name again.
    pub fn copy(&self) -> Name
        ensures { result ≡ self.now }
    {
        Name {
            bytes: copied(self.bytes.as_slice()),
        }
    }

    pub fn bytes(&self) -> &[u8]
        ensures { result.now ≡ self.now }
    {
        self.bytes.as_slice()
    }

    /// The name as a text, since its bytes are ASCII.
    #[tactic(auto, using(crate::proofs::NameLemmas::name_text))]
    pub fn as_str(&self) -> &str
        ensures { result.now ≡ self.now }
    {
        match std::str::from_utf8(self.bytes.as_slice()) {
            Ok(text) => text,
            Err(_) => unreachable!(),
        }
    }
}
