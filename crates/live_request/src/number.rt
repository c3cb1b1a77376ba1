//! Numbers in decimal.
ghost use Rattle.std.specs.Prelude.{◌≡◌, ◌≤◌, length, nat_lt, IfOk};
ghost use Rattle.std.specs.List.{list_all};
ghost use Rattle.std.specs.Char.{digit_value};
ghost use Rattle.text_numerals.specs.Numerals.{value_of};
ghost use Rattle.live_request.specs.Words.{number};
ghost use Rattle.live_request.specs.Views.{viewed};

use sim_refusals::numbers::REQUEST_NUMBER;

/// How many digits a number has at most.
const LONGEST: usize = 14;

fn digit(b: u8) -> u8
    ensures value { result ≡ digit_value b }
    ensures small { result ≤ 36 }
{
    match b {
        b'0'..=b'9' => b - b'0',
        b'A'..=b'Z' => b - b'A' + 10,
        b'a'..=b'z' => b - b'a' + 10,
        _ => 36,
    }
}

fn are_digits(text: &[u8]) -> bool
    ensures { result ≡ list_all (λ d. nat_lt (digit_value d) 10) text.now }
{
    text.iter().all(|d| digit(*d) < 10)
}

fn value(digits: &[u8]) -> u64
    requires short { length digits.now ≤ 14 }
    ensures value { result ≡ value_of 10 digits.now }
{
    let mut n: u64 = 0;
    for d in digits {
        n = 10 * n + u64::from(digit(*d));
    }
    n
}

/// A number of 1 to 14 digits that is at most the greatest, or 102 RequestNumber.
pub(crate) fn read_number(greatest: u64, word: &[u8]) -> Result<u64, u8>
    ensures number { viewed (λ n. n) result ≡ number greatest word.now }
    ensures most { IfOk result (λ n. n ≤ greatest) }
{
    if word.is_empty() || word.len() > LONGEST || !are_digits(word) {
        return Err(REQUEST_NUMBER);
    }
    let n = value(word);
    if n > greatest {
        return Err(REQUEST_NUMBER);
    }
    Ok(n)
}
