//! All lines of a chip.
ghost use Rattle.std.specs.Prelude.{◌≡◌, ◌*◌, IfSome, length, option_map, true};
ghost use Rattle.sim_base.specs.Outside.{SameOthers};
ghost use Rattle.sim_outcome_model.specs.Work.{WroteOn};
ghost use Rattle.chip_report.specs.Lines.{display_text, output_text};

use crate::console::write_console;
use crate::display::write_frame;
use sim_base::{Bench, Name, Port, WriteEnd};

/// Writes the lines of a display, if there is one.
fn write_display<B: Bench>(
    end: WriteEnd,
    id: &Name,
    frame: Option<(u32, u32, &[u8])>,
    bench: &mut B,
) -> WriteEnd
    requires opened { (B.outside bench.old).opened Port.Report ≡ true }
    requires size { IfSome frame (λ f. length f.2.now ≡ 4 * (f.0 * f.1)) }
    ensures next { WroteOn end result Port.Report (display_text id.now (option_map (λ f. (f.0, (f.1, f.2.now))) frame.entry)) (B.outside bench.old) (B.outside bench.new) }
    ensures named { (B.outside bench.new).name Port.Report ≡ (B.outside bench.old).name Port.Report }
    ensures opened { (B.outside bench.new).opened Port.Report ≡ true }
    ensures others { SameOthers Port.Report (B.outside bench.old) (B.outside bench.new) }
{
    match frame {
        Some((width, height, pixels)) => write_frame(end, id, width, height, pixels, bench),
        None => end,
    }
}

/// Writes the lines of what a chip printed and then of what it drew, where the writing so far has not failed. A display is
/// its width, its height and `4 * width * height` bytes.
pub fn write_output<B: Bench>(
    end: WriteEnd,
    id: &Name,
    console: &[u8],
    frame: Option<(u32, u32, &[u8])>,
    bench: &mut B,
) -> WriteEnd
    requires opened { (B.outside bench.old).opened Port.Report ≡ true }
    requires size { IfSome frame (λ f. length f.2.now ≡ 4 * (f.0 * f.1)) }
    ensures next { WroteOn end result Port.Report (output_text id.now console.now (option_map (λ f. (f.0, (f.1, f.2.now))) frame.entry)) (B.outside bench.old) (B.outside bench.new) }
    ensures named { (B.outside bench.new).name Port.Report ≡ (B.outside bench.old).name Port.Report }
    ensures opened { (B.outside bench.new).opened Port.Report ≡ true }
    ensures others { SameOthers Port.Report (B.outside bench.old) (B.outside bench.new) }
{
    let end = write_console(end, id, console, bench);
    write_display(end, id, frame, bench)
}
