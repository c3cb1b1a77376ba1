//! A number in digits.
ghost use Rattle.std.specs.Prelude.{◌≡◌, ◌≤◌, ◌<◌, ◌^◌, length, true, nat_lt, IfSome};
ghost use Rattle.std.specs.List.{list_all};
ghost use Rattle.std.specs.Char.{digit_value};
ghost use Rattle.text_numerals.specs.Numerals.{value_of, numeral};

fn digit(b: u8) -> u8
    ensures { result ≡ digit_value b }
{
    match b {
        b'0'..=b'9' => b - b'0',
        b'A'..=b'Z' => b - b'A' + 10,
        b'a'..=b'z' => b - b'a' + 10,
        _ => 36,
    }
}

fn are_digits(radix: u8, text: &[u8]) -> bool
    ensures { result ≡ list_all (λ d. nat_lt (digit_value d) radix) text.now }
{
    text.iter().all(|d| digit(*d) < radix)
}

fn value(radix: u8, digits: &[u8]) -> u64
    requires digits { list_all (λ d. nat_lt (digit_value d) radix) digits.now ≡ true }
    requires short { length digits.now ≤ 10 }
    requires radix { radix ≤ 16 }
    ensures value { result ≡ value_of radix digits.now }
    ensures small { result < 16 ^ length digits.now }
{
    let mut n: u64 = 0;
    for d in digits {
        n = u64::from(radix) * n + u64::from(digit(*d));
    }
    n
}

/// A number of 1 to `longest` digits of a radix, letters in either case; None exactly where the text
/// is none.
pub fn read_numeral(radix: u8, longest: usize, text: &[u8]) -> Option<u64>
    requires radix { radix ≤ 16 }
    requires longest { longest ≤ 10 }
    ensures number { result ≡ numeral radix longest text.now }
    ensures small { IfSome result (λ n. n < 16 ^ longest) }
{
    if text.is_empty() || text.len() > longest || !are_digits(radix, text) {
        return None;
    }
    Some(value(radix, text))
}
