//! The lines of a board's parts.
ghost use Rattle.std.specs.Prelude.{◌≡◌, ◌+◌, ◌<◌, ℕ, List, true, Some, map};
ghost use Rattle.board_build.specs.declared.plan.PlanPart.{PlanPart};
ghost use Rattle.board_build.specs.Parts.{is_chip};
ghost use Rattle.sim_base.specs.Outside.{SameOthers};
ghost use Rattle.sim_outcome_model.specs.Work.{Wrote, WroteOn};
ghost use Rattle.any_part.specs.AnyBehaviour.{own_of};
ghost use Rattle.sim_report.specs.Lines.{line_of};
ghost use Rattle.board_report.specs.Report.{mode_of, is_input, ignored_row, uno_rows, own_rows, lcd_row, lcd_rows, page_row, oled_rows, chip_row, chosen_text, parts_text, text_of, shown_text};

use any_part::AnyBehaviour;
use avr_core::Mode;
use avr_mcu::Mcu;
use board_build::{PlanKind, PlanPart};
use chip_host::{Chip, Death};
use chip_report::write_output;
use part_catalog::greatest_value;
use part_either::Either::{self, Left, Right};
use part_oled::Oled;
use part_reactive::Reactive;
use parts_basic::Led;
use parts_display::Lcd;
use sim_base::{Bench, Level, Name, Port, WriteEnd};
use sim_report::{ReportRow, UnoMode, write_report};
use trace_run::Player;

/// Writes a line where the writing so far has not failed.
fn write_line<B: Bench>(end: WriteEnd, row: &ReportRow, bench: &mut B) -> WriteEnd
    requires { (B.outside bench.old).opened Port.Report ≡ true }
    ensures next { WroteOn end result Port.Report (line_of row.now) (B.outside bench.old) (B.outside bench.new) }
    ensures named { (B.outside bench.new).name Port.Report ≡ (B.outside bench.old).name Port.Report }
    ensures opened { (B.outside bench.new).opened Port.Report ≡ true }
    ensures others { SameOthers Port.Report (B.outside bench.old) (B.outside bench.new) }
{
    match end {
        WriteEnd::Ok => write_report(row, bench),
        WriteEnd::Failed => WriteEnd::Failed,
    }
}

fn mode_of(mode: Mode) -> UnoMode
    ensures { result ≡ mode_of mode }
{
    match mode {
        Mode::Run => UnoMode::Run,
        Mode::Sleep => UnoMode::Sleep,
        Mode::Halt(word) => UnoMode::Halt(word),
    }
}

/// The line of an address that was written though no register is there.
fn write_ignored<B: Bench>(
    end: WriteEnd,
    id: &Name,
    address: u8,
    written: bool,
    bench: &mut B,
) -> WriteEnd
    requires { (B.outside bench.old).opened Port.Report ≡ true }
    ensures next { WroteOn end result Port.Report (text_of (ignored_row written id.now address)) (B.outside bench.old) (B.outside bench.new) }
    ensures named { (B.outside bench.new).name Port.Report ≡ (B.outside bench.old).name Port.Report }
    ensures opened { (B.outside bench.new).opened Port.Report ≡ true }
    ensures others { SameOthers Port.Report (B.outside bench.old) (B.outside bench.new) }
{
    if written {
        write_line(end, &ReportRow::Ignored(id.copy(), address), bench)
    } else {
        end
    }
}

/// Where the core of an Uno stands, and the addresses without a register that were written.
fn write_uno<B: Bench>(end: WriteEnd, id: &Name, uno: &Mcu, bench: &mut B) -> WriteEnd
    requires { (B.outside bench.old).opened Port.Report ≡ true }
    ensures next { WroteOn end result Port.Report (text_of (uno_rows id.now uno.now.mcu)) (B.outside bench.old) (B.outside bench.new) }
    ensures named { (B.outside bench.new).name Port.Report ≡ (B.outside bench.old).name Port.Report }
    ensures opened { (B.outside bench.new).opened Port.Report ≡ true }
    ensures others { SameOthers Port.Report (B.outside bench.old) (B.outside bench.new) }
{
    let row = ReportRow::Uno(id.copy(), uno.pc(), mode_of(uno.mode()));
    let mut end = write_line(end, &row, bench);
    for address in 0..256_u16 {
        let address = address as u8;
        end = write_ignored(end, id, address, uno.ignored(address), bench);
    }
    end
}

fn is_input(kind: PlanKind) -> bool
    ensures { result ≡ is_input kind }
{
    match kind {
        PlanKind::Stock(kind) => greatest_value(kind).is_some(),
        PlanKind::Chip(_) => false,
    }
}

/// A line of a text display, 0 or 1.
fn write_lcd_line<B: Bench>(end: WriteEnd, id: &Name, lcd: &Lcd, row: u8, bench: &mut B) -> WriteEnd
    requires row { row < 2 }
    requires opened { (B.outside bench.old).opened Port.Report ≡ true }
    ensures next { WroteOn end result Port.Report (line_of (lcd_row id.now lcd.now.screen row)) (B.outside bench.old) (B.outside bench.new) }
    ensures named { (B.outside bench.new).name Port.Report ≡ (B.outside bench.old).name Port.Report }
    ensures opened { (B.outside bench.new).opened Port.Report ≡ true }
    ensures others { SameOthers Port.Report (B.outside bench.old) (B.outside bench.new) }
{
    let row = ReportRow::Lcd(id.copy(), row + 1, lcd.line(row));
    write_line(end, &row, bench)
}

/// The two lines of a text display.
fn write_lcd<B: Bench>(end: WriteEnd, id: &Name, lcd: &Lcd, bench: &mut B) -> WriteEnd
    requires { (B.outside bench.old).opened Port.Report ≡ true }
    ensures next { WroteOn end result Port.Report (text_of (lcd_rows id.now lcd.now.screen)) (B.outside bench.old) (B.outside bench.new) }
    ensures named { (B.outside bench.new).name Port.Report ≡ (B.outside bench.old).name Port.Report }
    ensures opened { (B.outside bench.new).opened Port.Report ≡ true }
    ensures others { SameOthers Port.Report (B.outside bench.old) (B.outside bench.new) }
{
    let end = write_lcd_line(end, id, lcd, 0, bench);
    write_lcd_line(end, id, lcd, 1, bench)
}

/// A page of an OLED, 0 to 7.
fn write_page<B: Bench>(end: WriteEnd, id: &Name, oled: &Oled, page: u8, bench: &mut B) -> WriteEnd
    requires page { page < 8 }
    requires opened { (B.outside bench.old).opened Port.Report ≡ true }
    ensures next { WroteOn end result Port.Report (line_of (page_row id.now oled.now.picture page)) (B.outside bench.old) (B.outside bench.new) }
    ensures named { (B.outside bench.new).name Port.Report ≡ (B.outside bench.old).name Port.Report }
    ensures opened { (B.outside bench.new).opened Port.Report ≡ true }
    ensures others { SameOthers Port.Report (B.outside bench.old) (B.outside bench.new) }
{
    let row = ReportRow::OledPage(id.copy(), page, oled.page(page));
    write_line(end, &row, bench)
}

/// Whether an OLED is on, and its pages.
fn write_oled<B: Bench>(end: WriteEnd, id: &Name, oled: &Oled, bench: &mut B) -> WriteEnd
    requires { (B.outside bench.old).opened Port.Report ≡ true }
    ensures next { WroteOn end result Port.Report (text_of (oled_rows id.now oled.now.picture)) (B.outside bench.old) (B.outside bench.new) }
    ensures named { (B.outside bench.new).name Port.Report ≡ (B.outside bench.old).name Port.Report }
    ensures opened { (B.outside bench.new).opened Port.Report ≡ true }
    ensures others { SameOthers Port.Report (B.outside bench.old) (B.outside bench.new) }
{
    let row = ReportRow::Oled(id.copy(), oled.shown());
    let mut end = write_line(end, &row, bench);
    for page in 0..8_u8 {
        end = write_page(end, id, oled, page, bench);
    }
    end
}

/// What a part that does nothing by itself shows, on the levels of its last step.
fn write_own<B: Bench>(
    end: WriteEnd,
    part: &PlanPart,
    held: &[Level],
    own: &AnyBehaviour,
    bench: &mut B,
) -> WriteEnd
    requires { (B.outside bench.old).opened Port.Report ≡ true }
    ensures next { WroteOn end result Port.Report (text_of (own_rows part.now held.now (own_of own.now))) (B.outside bench.old) (B.outside bench.new) }
    ensures named { (B.outside bench.new).name Port.Report ≡ (B.outside bench.old).name Port.Report }
    ensures opened { (B.outside bench.new).opened Port.Report ≡ true }
    ensures others { SameOthers Port.Report (B.outside bench.old) (B.outside bench.new) }
{
    match own {
        Left(led) => {
            let row = ReportRow::Led(part.id.copy(), Led::lit(held), led.count());
            write_line(end, &row, bench)
        }
        Right(Left(passive)) => {
            if is_input(part.kind) {
                let row = ReportRow::Input(part.id.copy(), passive.value());
                write_line(end, &row, bench)
            } else {
                end
            }
        }
        Right(Right(Left(_gate))) => end,
        Right(Right(Right(Left(shift)))) => {
            let (stages, storage) = shift.registers();
            write_line(
                end,
                &ReportRow::Shift(part.id.copy(), stages, storage),
                bench,
            )
        }
        Right(Right(Right(Right(Left(seven))))) => {
            let row = ReportRow::Seg(part.id.copy(), seven.segments());
            write_line(end, &row, bench)
        }
        Right(Right(Right(Right(Right(Left(lcd)))))) => write_lcd(end, &part.id, lcd, bench),
        Right(Right(Right(Right(Right(Right(oled)))))) => write_oled(end, &part.id, oled, bench),
    }
}

/// Whether a chip lives, or the trap that ended it and its cycle.
fn chip_row(id: &Name, trap: Option<Death>) -> ReportRow
    ensures { result ≡ chip_row id.now trap }
{
    match trap {
        Some(death) => ReportRow::Trap(id.copy(), death.trap.number(), death.cycle),
        None => ReportRow::Alive(id.copy()),
    }
}

/// A part that has a text in a report, by how it stands: whole lines, or nothing.
pub trait Shown {
    ghost Stood: { Type 0 };

    ghost stood: { Self → Stood };

    ghost says: { PlanPart → Stood → List ℕ };

    /// Writes its lines where the writing so far has not failed.
    fn write_lines<B: Bench>(&self, end: WriteEnd, part: &PlanPart, bench: &mut B) -> WriteEnd
        requires { (B.outside bench.old).opened Port.Report ≡ true }
        ensures next { WroteOn end result Port.Report (says part.now (stood self.now)) (B.outside bench.old) (B.outside bench.new) }
        ensures named { (B.outside bench.new).name Port.Report ≡ (B.outside bench.old).name Port.Report }
        ensures opened { (B.outside bench.new).opened Port.Report ≡ true }
        ensures others { SameOthers Port.Report (B.outside bench.old) (B.outside bench.new) };
}

impl Shown for Mcu {
    ghost use Rattle.avr_mcu.specs.Mcu.{Mcu as State};
    ghost use Rattle.board_report.specs.Report.{uno_text};

    ghost Stood = { State };

    ghost stood = { λ p. p.mcu };

    ghost says = { uno_text };

    fn write_lines<B: Bench>(&self, end: WriteEnd, part: &PlanPart, bench: &mut B) -> WriteEnd {
        write_uno(end, &part.id, self, bench)
    }
}

impl Shown for Reactive<AnyBehaviour> {
    ghost use Rattle.part_reactive.specs.Reaction.{Reacting};
    ghost use Rattle.any_part.specs.AnyBehaviour.{AnyOwn, own_of};
    ghost use Rattle.board_report.specs.Report.{own_text};

    ghost Stood = { Reacting AnyOwn };

    ghost stood = { λ p. record { own = own_of p.behaviour; held = p.held } };

    ghost says = { own_text };

    fn write_lines<B: Bench>(&self, end: WriteEnd, part: &PlanPart, bench: &mut B) -> WriteEnd {
        write_own(end, part, self.held(), self.behaviour(), bench)
    }
}

impl Shown for Chip {
    ghost use Rattle.chip_host.specs.Chip.{Chip as State};
    ghost use Rattle.board_report.specs.Report.{chip_text};

    ghost Stood = { State };

    ghost stood = { λ p. p.chip };

    ghost says = { chip_text };

    fn write_lines<B: Bench>(&self, end: WriteEnd, part: &PlanPart, bench: &mut B) -> WriteEnd {
        let row = chip_row(&part.id, self.trap());
        let end = write_line(end, &row, bench);
        write_output(end, &part.id, self.console(), self.frame(), bench)
    }
}

/// A player of recorded drives has no lines.
impl Shown for Player {
    ghost use Rattle.law_board.specs.Player.{PlayerState};
    ghost use Rattle.board_report.specs.Report.{no_text};

    ghost Stood = { PlayerState };

    ghost stood = { λ p. p.player };

    ghost says = { no_text };

    fn write_lines<B: Bench>(&self, end: WriteEnd, _part: &PlanPart, _bench: &mut B) -> WriteEnd {
        end
    }
}

impl<P: Shown, Q: Shown> Shown for Either<P, Q> {
    ghost use Rattle.std.specs.Prelude.{◌⊎◌};
    ghost use Rattle.part_either.specs.EitherPart.{either_state};
    ghost use Rattle.board_report.specs.Report.{either_text};

    ghost Stood = { P.Stood ⊎ Q.Stood };

    ghost stood = { either_state P.stood Q.stood };

    ghost says = { either_text P.says Q.says };

    fn write_lines<B: Bench>(&self, end: WriteEnd, part: &PlanPart, bench: &mut B) -> WriteEnd {
        match self {
            Left(left) => left.write_lines(end, part, bench),
            Right(right) => right.write_lines(end, part, bench),
        }
    }
}

fn is_chip(kind: PlanKind) -> bool
    ensures { result ≡ is_chip (Some kind) }
{
    matches!(kind, PlanKind::Chip(_))
}

/// The lines of a part, where it is a chip and chips are wanted, or neither.
fn write_chosen<P: Shown, B: Bench>(
    end: WriteEnd,
    chips: bool,
    part: &PlanPart,
    state: &P,
    bench: &mut B,
) -> WriteEnd
    requires { (B.outside bench.old).opened Port.Report ≡ true }
    ensures next { WroteOn end result Port.Report (chosen_text P.says chips part.now (P.stood state.now)) (B.outside bench.old) (B.outside bench.new) }
    ensures named { (B.outside bench.new).name Port.Report ≡ (B.outside bench.old).name Port.Report }
    ensures opened { (B.outside bench.new).opened Port.Report ≡ true }
    ensures others { SameOthers Port.Report (B.outside bench.old) (B.outside bench.new) }
{
    match (chips, is_chip(part.kind)) {
        (true, true) | (false, false) => state.write_lines(end, part, bench),
        (true, false) | (false, true) => end,
    }
}

/// The lines of the parts that are no chips, or of those that are, in their order.
fn write_parts<P: Shown, B: Bench>(
    end: WriteEnd,
    chips: bool,
    plan: &[PlanPart],
    parts: &[P],
    bench: &mut B,
) -> WriteEnd
    requires { (B.outside bench.old).opened Port.Report ≡ true }
    ensures next { WroteOn end result Port.Report (parts_text P.says chips plan.now (map P.stood parts.now)) (B.outside bench.old) (B.outside bench.new) }
    ensures named { (B.outside bench.new).name Port.Report ≡ (B.outside bench.old).name Port.Report }
    ensures opened { (B.outside bench.new).opened Port.Report ≡ true }
    ensures others { SameOthers Port.Report (B.outside bench.old) (B.outside bench.new) }
{
    let mut end = end;
    for i in 0..plan.len().min(parts.len()) {
        end = write_chosen(end, chips, &plan[i], &parts[i], bench);
    }
    end
}

/// Writes the report of a board after so many cycles on Report: all of it, or a first part where a
/// write fails. The parts of the plan and those of the board stand in the same order; chips come last, if
/// they are to have lines.
pub fn write_report_of<P: Shown, B: Bench>(
    cycles: u64,
    chips: bool,
    plan: &[PlanPart],
    parts: &[P],
    bench: &mut B,
) -> WriteEnd
    requires { (B.outside bench.old).opened Port.Report ≡ true }
    ensures wrote { Wrote result Port.Report (shown_text P.says chips cycles plan.now (map P.stood parts.now)) (B.outside bench.old) (B.outside bench.new) }
    ensures named { (B.outside bench.new).name Port.Report ≡ (B.outside bench.old).name Port.Report }
    ensures others { SameOthers Port.Report (B.outside bench.old) (B.outside bench.new) }
{
    let end = write_report(&ReportRow::Cycles(cycles), bench);
    let end = write_parts(end, false, plan, parts, bench);
    if chips {
        write_parts(end, true, plan, parts, bench)
    } else {
        end
    }
}
