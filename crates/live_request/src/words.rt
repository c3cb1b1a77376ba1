//! The words of a line.
ghost use Rattle.std.specs.Prelude.{◌≡◌, ◌∷◌};
ghost use Rattle.live_request.specs.Words.{words, next, is_empty, ended, next_number};
ghost use Rattle.live_request.specs.Views.{viewed};
ghost use Rattle.live_request.specs.Rests.{words_left};

use crate::number::read_number;
use input_texts::find;
use sim_refusals::numbers::REQUEST_WORDS;

/// What is left of a line after some of its words; None where it ended with the last of them.
pub type Rest<'a> = Option<&'a [u8]>;

/// The first word of a text, which ends before a space or with the text, and what follows that space.
pub(crate) fn split_word(text: &[u8]) -> (&[u8], Rest<'_>)
    ensures { words text.now ≡ result.0.now ∷ words_left result.1 }
{
    match find(text, b' ') {
        Some(end) => (&text[..end], Some(&text[end + 1..])),
        None => (text, None),
    }
}

/// The next word and what follows it, or 101 RequestWords.
pub(crate) fn next_word(rest: Rest<'_>) -> Result<(&[u8], Rest<'_>), u8>
    ensures { viewed (λ x. (x.0.now, words_left x.1)) result ≡ next (words_left rest.entry) }
{
    match rest {
        Some(text) => Ok(split_word(text)),
        None => Err(REQUEST_WORDS),
    }
}

/// Whether no word is left.
pub(crate) fn is_over(rest: Rest<'_>) -> bool
    ensures { result ≡ is_empty (words_left rest.entry) }
{
    rest.is_none()
}

/// 101 RequestWords where a word is left.
pub(crate) fn end(rest: Rest<'_>) -> Result<(), u8>
    ensures { viewed (λ x. x) result ≡ ended tt (words_left rest.entry) }
{
    if is_over(rest) {
        Ok(())
    } else {
        Err(REQUEST_WORDS)
    }
}

/// The next word as a number, and what follows it.
pub(crate) fn next_number(greatest: u64, rest: Rest<'_>) -> Result<(u64, Rest<'_>), u8>
    ensures { viewed (λ x. (x.0, words_left x.1)) result ≡ next_number greatest (words_left rest.entry) }
{
    let (word, rest) = next_word(rest)?;
    let n = read_number(greatest, word)?;
    Ok((n, rest))
}
