//! The values of a chip's attributes.
ghost use Rattle.std.specs.Prelude.{◌≡◌, ◌<◌, ◌^◌, IfSome, option_map};
ghost use Rattle.std.specs.Str.{bytes_eq};
ghost use Rattle.part_catalog.specs.Attributes.{attribute};
ghost use Rattle.chip_host.specs.Attributes.{below_zero, up_from_zero, whole_number, attr_value};

use sim_base::Text;
use text_numerals::read_numeral;

pub(crate) fn is_same(a: &[u8], b: &[u8]) -> bool
    ensures { result ≡ bytes_eq a.now b.now }
{
    a == b
}

/// The text of an attribute, the later one where there are several.
fn text_of<'a>(name: &[u8], attrs: &'a [(Text, Text)]) -> Option<&'a [u8]>
    ensures { option_map (λ t. t.now) result ≡ attribute name.now attrs.now }
{
    let mut found: Option<&'a [u8]> = None;
    for (key, text) in attrs {
        if is_same(key.as_str().as_bytes(), name) {
            found = Some(text.as_str().as_bytes());
        }
    }
    found
}

fn below_zero(n: Option<u64>) -> Option<u32>
    ensures { result ≡ below_zero n }
{
    match n {
        Some(n) if n == 0 => Some(0),
        Some(n) if n <= 0x8000_0000 => Some((0x1_0000_0000 - n) as u32),
        _ => None,
    }
}

fn up_from_zero(n: Option<u64>) -> Option<u32>
    ensures { result ≡ up_from_zero n }
{
    match n {
        Some(n) if n < 0x1_0000_0000 => Some(n as u32),
        _ => None,
    }
}

/// A whole number from -2^31 to 2^32 - 1 as an i32.
fn whole_number(text: &[u8]) -> Option<u32>
    ensures { result ≡ whole_number text.now }
{
    match text {
        [] => None,
        [first, digits @ ..] => {
            if *first == b'-' {
                below_zero(read_numeral(10, 10, digits))
            } else {
                up_from_zero(read_numeral(10, 10, text))
            }
        }
    }
}

/// The value of an attribute, or the default where the diagram gives no whole number.
pub(crate) fn attr_value(name: &[u8], default: u32, attrs: &[(Text, Text)]) -> u32
    ensures { result ≡ attr_value name.now default attrs.now }
{
    match text_of(name, attrs) {
        Some(text) => match whole_number(text) {
            Some(value) => value,
            None => default,
        },
        None => default,
    }
}
