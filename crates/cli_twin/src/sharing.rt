//! What two projects share.
ghost use Rattle.std.specs.Prelude.{◌≡◌, length};
ghost use Rattle.std.specs.Option.{option_map};
ghost use Rattle.std.specs.Str.{bytes_eq};
ghost use Rattle.board_model.specs.Rows.{same_list};
ghost use Rattle.cli_project.specs.Works.{work_of};
ghost use Rattle.cli_twin.specs.Shared.{names_of, other_path, other_pins, same_flash, same_pin};

use chip_module::ChipSource;
use cli_project::Work;
use document_model::ChipFile;
use sim_base::{Flash, Name};

fn same_bytes(a: &[u8], b: &[u8]) -> bool
    ensures { result ≡ bytes_eq a.now b.now }
{
    a == b
}

/// Whether the chips have the same names in the same order.
fn same_names(a: &[ChipFile], b: &[ChipFile]) -> bool
    ensures { result ≡ same_list bytes_eq (names_of a.now) (names_of b.now) }
{
    if a.len() != b.len() {
        return false;
    }
    for i in 0..a.len() {
        if !same_bytes(a[i].name.bytes(), b[i].name.bytes()) {
            return false;
        }
    }
    true
}

/// Whether two images of the flash have the same bytes.
fn same_flash(a: &Flash, b: &Flash) -> bool
    ensures { result ≡ same_flash a.now b.now }
{
    for i in 0..32768 {
        if a.byte(i) != b.byte(i) {
            return false;
        }
    }
    true
}

/// Whether two positions have pins of one name, or are both skipped.
fn same_pin(a: &Option<Name>, b: &Option<Name>) -> bool
    ensures { result ≡ same_pin a.now b.now }
{
    match (a, b) {
        (Some(a), Some(b)) => same_bytes(a.bytes(), b.bytes()),
        (None, None) => true,
        _ => false,
    }
}

/// Whether two chips have the same pins.
fn same_pins(a: &[Option<Name>], b: &[Option<Name>]) -> bool
    ensures { result ≡ same_list same_pin a.now b.now }
{
    if a.len() != b.len() {
        return false;
    }
    for i in 0..a.len() {
        if !same_pin(&a[i], &b[i]) {
            return false;
        }
    }
    true
}

/// The pin file of the first chip whose pins are others.
fn other_pins<'a>(
    files: &'a [ChipFile],
    one: &[ChipSource],
    other: &[ChipSource],
) -> Option<&'a str>
    requires one { length one.now ≡ length files.now }
    requires other { length other.now ≡ length files.now }
    ensures { option_map (λ p. p.now) result ≡ other_pins files.now one.now other.now }
{
    for i in 0..files.len() {
        if !same_pins(one[i].pins.as_slice(), other[i].pins.as_slice()) {
            return Some(files[i].json.as_str());
        }
    }
    None
}

/// The path of the first file of the other project that differs, in the order in which they are read.
pub(crate) fn other_path<'a>(one: &Work, other: &'a Work) -> Option<&'a str>
    requires one { length one.now.chips ≡ length one.now.project.chips }
    requires other { length other.now.chips ≡ length other.now.project.chips }
    ensures { option_map (λ p. p.now) result ≡ other_path (work_of one.now) (work_of other.now) }
{
    let files = other.project.chips.as_slice();
    if !same_names(one.project.chips.as_slice(), files) {
        return Some("wokwi.toml");
    }
    if !same_flash(&one.flash, &other.flash) {
        return Some(other.project.firmware.as_str());
    }
    if !same_bytes(one.diagram.as_slice(), other.diagram.as_slice()) {
        return Some("diagram.json");
    }
    other_pins(files, one.chips.as_slice(), other.chips.as_slice())
}
