//! The words of a line.
ghost use Rattle.std.specs.Prelude.{◌≡◌, [], ◌∷◌};
ghost use Rattle.std.specs.Option.{option_map};
ghost use Rattle.input_script.specs.Script.{words};
ghost use Rattle.input_script.specs.Verdicts.{words_after};

use input_texts::find;

fn skip_spaces(bytes: &[u8]) -> &[u8]
    ensures { words (32 ∷ bytes.now) ≡ [] ∷ words result.now }
{
    for (i, b) in bytes.iter().enumerate() {
        if *b != b' ' {
            return &bytes[i..];
        }
    }
    &bytes[bytes.len()..]
}

/// The first word of a line, and what follows the spaces after it; None where the line ends with it.
pub(crate) fn next_word(line: &[u8]) -> (&[u8], Option<&[u8]>)
    ensures { words line.now ≡ result.0.now ∷ words_after (option_map (λ rest. rest.now) result.1) }
{
    match find(line, b' ') {
        Some(end) => (&line[..end], Some(skip_spaces(&line[end + 1..]))),
        None => (line, None),
    }
}
