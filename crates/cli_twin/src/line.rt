//! The line of a twin.
ghost use Rattle.std.specs.Prelude.{◌≡◌, [], None, IfOk, string_bytes, slice_get, unwrap_or};
ghost use Rattle.std.specs.Option.{option_map};
ghost use Rattle.board_build.specs.Pins.{pins_of_chip};
ghost use Rattle.chip_module.specs.Sources.{pins_of};
ghost use Rattle.cli_twin.specs.Found.{diff_of};
ghost use Rattle.cli_twin.specs.Line.{drive_word, id_of, line, pin_of};

use board_build::{PlanKind, PlanPart};
use board_twin::TwinEnd;
use chip_module::ChipSource;
use sim_base::Drive;
use std::alloc::{AllocError, Global};

fn drive_word(drive: Drive) -> &'static str
    ensures { result.now ≡ drive_word drive }
{
    match drive {
        Drive::Z => "z",
        Drive::Low => "low",
        Drive::High => "high",
        Drive::PullLow => "pulllow",
        Drive::PullHigh => "pullhigh",
        Drive::Wiper(_) => "wiper",
    }
}

/// The id of a part.
fn id_of<'a>(part: Option<&'a PlanPart>) -> &'a str
    ensures { result.now ≡ id_of (option_map (λ p. p.now) part.entry) }
{
    match part {
        Some(part) => part.id.as_str(),
        None => "",
    }
}

/// The name of a pin of a chip.
fn name_at<'a>(chips: &'a [ChipSource], chip: u8, pin: u8) -> &'a str
    ensures { result.now ≡ unwrap_or (unwrap_or (slice_get (pins_of_chip (pins_of chips.now) chip) pin) None) [] }
{
    match chips.get(chip as usize) {
        Some(source) => match source.pins.get(pin as usize) {
            Some(Some(name)) => name.as_str(),
            _ => "",
        },
        None => "",
    }
}

/// The name of a pin of a part.
fn pin_of<'a>(chips: &'a [ChipSource], pin: u8, part: Option<&PlanPart>) -> &'a str
    ensures { result.now ≡ pin_of (pins_of chips.now) pin (option_map (λ p. p.now) part.entry) }
{
    match part {
        Some(part) => match part.kind {
            PlanKind::Chip(chip) => name_at(chips, chip, pin),
            PlanKind::Stock(_) => "",
        },
        None => "",
    }
}

/// Says how a twin of these parts and chips ended.
pub(crate) fn line(
    alloc: Global,
    chips: &[ChipSource],
    parts: &[PlanPart],
    n: u64,
    end: TwinEnd,
) -> Result<String, AllocError>
    ensures { IfOk result (λ s. string_bytes s ≡ line (pins_of chips.now) parts.now n (diff_of end)) }
{
    match end {
        TwinEnd::Same => format!(in alloc; "same for {n} cycles\n"),
        TwinEnd::Differs {
            cycle,
            part,
            pin,
            a,
            b,
        } => {
            let part = parts.get(part as usize);
            let id = id_of(part);
            let name = pin_of(chips, pin, part);
            let a = drive_word(a);
            let b = drive_word(b);
            format!(in alloc; "first difference at cycle {cycle} chip {id} pin {name} {a} {b}\n")
        }
    }
}
