//! The list that a caller passes: words and files, one after the other.
ghost use Rattle.std.specs.Prelude.{◌≡◌};
ghost use Rattle.std.specs.Option.{option_map, is_some};
ghost use Rattle.web_call.specs.Blocks.{first_block};
ghost use Rattle.web_call.specs.Entries.{first_text, first_entry, entry_of, entries};

/// A word of the command line, or a file's name and its bytes.
#[derive(Clone, Copy)]
pub(crate) enum Entry<'a> {
    Word(&'a str),
    File(&'a str, &'a [u8]),
}

/// The bytes of the first block of a list, and what follows.
fn first_block(list: &[u8]) -> Option<(&[u8], &[u8])>
    ensures { option_map (λ b. (b.0.now, b.1.now)) result ≡ first_block list.now }
{
    match list {
        [a, b, c, d, e, f, g, h, rest @ ..] => {
            let long = u64::from_le_bytes([*a, *b, *c, *d, *e, *f, *g, *h]) as usize;
            if long > rest.len() {
                return None;
            }
            Some(rest.split_at(long))
        }
        _ => None,
    }
}

/// The first block of a list where it is a text.
fn first_text(list: &[u8]) -> Option<(&str, &[u8])>
    ensures { option_map (λ b. (b.0.now, b.1.now)) result ≡ first_text list.now }
{
    let (bytes, rest) = first_block(list)?;
    match str::from_utf8(bytes) {
        Ok(text) => Some((text, rest)),
        Err(_) => None,
    }
}

/// The first word or file of a list, and what follows.
pub(crate) fn first_entry(list: &[u8]) -> Option<(Entry<'_>, &[u8])>
    ensures { option_map (λ e. (entry_of e.0, e.1.now)) result ≡ first_entry list.now }
{
    match list {
        [b'w', rest @ ..] => {
            let (word, rest) = first_text(rest)?;
            Some((Entry::Word(word), rest))
        }
        [b'f', rest @ ..] => {
            let (name, rest) = first_text(rest)?;
            let (bytes, rest) = first_block(rest)?;
            Some((Entry::File(name, bytes), rest))
        }
        _ => None,
    }
}

/// Whether these are words and files and nothing else.
#[tactic(auto, using(crate::proofs::EntryLemmas::stops, crate::proofs::EntryLemmas::spent, crate::proofs::EntryLemmas::all_listed))]
pub(crate) fn is_list(list: &[u8]) -> bool
    ensures { result ≡ is_some (entries list.now) }
{
    let mut rest = list;
    let mut left = list.len();
    while !rest.is_empty() {
        if left == 0 {
            return false;
        }
        left -= 1;
        let Some((_, after)) = first_entry(rest) else {
            return false;
        };
        rest = after;
    }
    true
}
