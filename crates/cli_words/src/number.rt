//! Numbers in words.
ghost use Rattle.std.specs.Prelude.{◌≡◌, ◌≤◌, length, true};
ghost use Rattle.std.specs.List.{list_all};
ghost use Rattle.cli_words_model.specs.Request.{is_digit, value_of, number_within};

fn is_number(word: &[u8]) -> bool
    ensures { result ≡ list_all is_digit word.now }
{
    word.iter().all(|c| b'0' <= *c && *c <= b'9')
}

fn value(digits: &[u8]) -> u64
    requires digits { list_all is_digit digits.now ≡ true }
    requires short { length digits.now ≤ 10 }
    ensures { result ≡ value_of digits.now }
{
    let mut n: u64 = 0;
    for c in digits {
        n = 10 * n + u64::from(*c - b'0');
    }
    n
}

/// A number of 1 to 10 digits within bounds.
pub(crate) fn read_number(least: u32, greatest: u32, word: &str) -> Option<u32>
    ensures { result ≡ number_within least greatest word.now }
{
    let digits = word.as_bytes();
    if !is_number(digits) || digits.is_empty() || digits.len() > 10 {
        return None;
    }
    let n = value(digits);
    if n < u64::from(least) || n > u64::from(greatest) {
        return None;
    }
    Some(n as u32)
}
