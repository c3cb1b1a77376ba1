//! Where reports are made before they are said.
ghost use Rattle.std.specs.Prelude.{◌≡◌, [], IfOk, List, map, true};
ghost use Rattle.sim_base.specs.Mem.{port_of};
ghost use Rattle.board_report.specs.Report.{shown_text};

use board_build::PlanPart;
use board_report::{Shown, write_report_of};
use sim_base::{Bench, MemBench, OutOfMemory, Port, WriteEnd};
use std::alloc::Global;
use std::marker::Model;

/// How much room a report has at first, and how often that may double.
const ROOM: u32 = 65_536;

const DOUBLINGS: u32 = 15;

/// The last report that was made.
#[derive(Drop)]
pub struct Page {
    bench: MemBench,
    room: u32,
}

impl Model for Page {
    ghost use Rattle.std.specs.Prelude.{List, ℕ};
    ghost use Rattle.sim_base.specs.Mem.{port_of};
    ghost use Rattle.sim_base.specs.declared.bench.Port.TheVariants as ports;

    ghost Value = { List ℕ };

    ghost view = { λ p. (port_of p.bench ports.Report).bytes };
}

/// Writes a report into a bench, in place of the one before.
fn write_report<P: Shown>(
    bench: &mut MemBench,
    cycles: u64,
    plan: &[PlanPart],
    parts: &[P],
) -> WriteEnd
    ensures { result ≡ WriteEnd.Ok → (port_of bench.new Port.Report).bytes ≡ shown_text P.says true cycles plan.now (map P.stood parts.now) }
{
    match bench.open_port(Port::Report, "-") {
        WriteEnd::Ok => write_report_of(cycles, true, plan, parts, bench),
        WriteEnd::Failed => WriteEnd::Failed,
    }
}

impl Page {
    /// It has no report yet, and takes no memory.
    pub fn new(alloc: Global) -> Page
        ensures { result ≡ [] }
    {
        Page {
            bench: MemBench::new(alloc),
            room: ROOM,
        }
    }

    /// Makes the report after so many cycles, with as much room as it needs. If memory runs out, it has a part of it, or the one before.
    pub fn make<P: Shown>(
        &mut self,
        cycles: u64,
        plan: &[PlanPart],
        parts: &[P],
    ) -> Result<(), OutOfMemory>
        ensures { IfOk result (λ _. self.new ≡ shown_text P.says true cycles plan.now (map P.stood parts.now)) }
    {
        for _ in 0..DOUBLINGS {
            self.bench.room(Port::Report, self.room)?;
            match write_report(&mut self.bench, cycles, plan, parts) {
                WriteEnd::Ok => return Ok(()),
                WriteEnd::Failed => self.room = self.room.saturating_mul(2),
            }
        }
        Err(OutOfMemory)
    }

    /// The report that was made last.
    pub fn text(&self) -> &[u8]
        ensures { result.now ≡ self.now }
    {
        self.bench.written(Port::Report)
    }
}
