//! Word addresses of the flash.
ghost use Rattle.std.specs.Prelude.{◌≡◌, ◌<◌, ◌∷◌, [], IfSome, IfNone};
ghost use Rattle.live_request.specs.Addresses as asks;
ghost use Rattle.live_request.specs.Views.{viewed};
ghost use Rattle.live_request.specs.Rests.{words_left};

use crate::number::read_number;
use crate::words::{Rest, next_word, split_word};
use std::marker::Model;

/// The greatest word address of the flash.
const LAST_WORD: u64 = 0x3FFF;

/// The word addresses that the rest of a line names.
#[derive(Drop)]
pub struct Addresses<'a> {
    rest: Rest<'a>,
}

impl<'a> Model for Addresses<'a> {
    ghost use Rattle.std.specs.Prelude.{◌≡◌, List, ℕ, Ok};
    ghost use Rattle.live_request.specs.Addresses.{values, are_addresses};
    ghost use Rattle.live_request.specs.Rests.{words_left};

    ghost Value = { List ℕ };

    ghost view = { λ a. values (words_left a.rest) };

    ghost invariant = { λ a. are_addresses (words_left a.rest) ≡ Ok tt };
}

/// Whether words are all word addresses of the flash.
#[tactic(auto, unfolding(crate::specs::Addresses::are_addresses))]
fn are_addresses(rest: Rest<'_>) -> Result<(), u8>
    ensures { viewed (λ x. x) result ≡ asks.are_addresses (words_left rest.entry) }
{
    let mut rest = rest;
    while let Some(text) = rest {
        let (word, more) = split_word(text);
        match read_number(LAST_WORD, word) {
            Ok(_) => rest = more,
            Err(number) => return Err(number),
        }
    }
    Ok(())
}

/// The word addresses that the rest of a line names, at least one.
pub(crate) fn read_addresses<'a>(rest: Rest<'a>) -> Result<Addresses<'a>, u8>
    ensures { viewed (λ a. a) result ≡ asks.addresses (words_left rest.entry) }
{
    next_word(rest)?;
    are_addresses(rest)?;
    Ok(Addresses { rest })
}

impl<'a> Addresses<'a> {
    /// Takes the first of them out.
    #[tactic(auto, unfolding(crate::specs::Addresses::are_addresses))]
    pub fn next_address(&mut self) -> Option<u16>
        ensures some { IfSome result (λ a. self.old ≡ a ∷ self.new) }
        ensures none { IfNone result (self.old ≡ []) }
        ensures small { IfSome result (λ a. a < 16384) }
    {
        let Some(text) = self.rest else {
            return None;
        };
        let (word, rest) = split_word(text);
        let Ok(address) = read_number(LAST_WORD, word) else {
            unreachable!()
        };
        self.rest = rest;
        Some(address as u16)
    }
}
