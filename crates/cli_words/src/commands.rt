//! Commands for clap, and what it finds.
ghost use Rattle.std.specs.Prelude.{◌≡◌, ◌<◌, map, string_bytes, length, IfOk};
ghost use Rattle.std.specs.Option.{option_map};
ghost use Rattle.clap.specs.Words.{app_of, rows_of, found_of};
ghost use Rattle.cli_words_model.specs.Words.{Given, texts_of, text_of};
ghost use Rattle.cli_words.specs.Commands.{app_for, row, AreOf};

use clap::error::ErrorKind;
use clap::{Arg, ArgAction, ArgMatches, Command};
use std::alloc::{AllocError, Global};

/// A command with these positional words in their order, and these options.
fn command<'a>(
    alloc: Global,
    words: &[&'a str],
    options: &[&'a str],
) -> Result<Command<'a>, AllocError>
    ensures { IfOk result (λ c. app_of c ≡ app_for (map (λ w. w.now) words.now) (map (λ o. o.now) options.now)) }
{
    let mut command = Command::new(alloc, "")
        .no_binary_name(true)
        .disable_help_flag(true);
    for name in words {
        command = command.arg(Arg::new(alloc, name).action(ArgAction::Set))?;
    }
    for option in options {
        command = command.arg(Arg::new(alloc, option).long(option).action(ArgAction::Set))?;
    }
    Ok(command)
}

/// The texts that the words give, by the names of a command's positional words and of its options;
/// None where the words are not of its form.
pub(crate) fn read_texts<'a>(
    alloc: Global,
    words: &[&'a str],
    options: &[&'a str],
    given: &'a [String],
) -> Result<Option<ArgMatches<'a>>, AllocError>
    requires { length words.now < 100 }
    ensures { IfOk result (λ o. option_map (λ m. rows_of (found_of m)) o ≡ option_map (map row)
        (texts_of (record { words = map (λ w. w.now) words.now; options = map (λ o. o.now) options.now }) (map string_bytes given.entry.now))) }
{
    let command = command(alloc, words, options)?;
    match command.try_get_matches_from(given) {
        Ok(matches) => Ok(Some(matches)),
        Err(error) => match error.kind() {
            ErrorKind::OutOfMemory => Err(AllocError),
            _ => Ok(None),
        },
    }
}

/// The text under a name.
pub(crate) fn text<'a>(matches: &ArgMatches<'a>, name: &str) -> Option<&'a str>
    ensures { (given : Given) → AreOf given matches.now → option_map (λ t. t.now) result ≡ text_of name.now given }
{
    matches.get_str(name)
}
