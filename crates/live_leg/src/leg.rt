//! Who is handed the rows and bytes of a leg.
ghost use Rattle.live_leg.specs.Legs.{LegTied, leg_place, LegStands, LegStopped};
ghost use Rattle.vcd_text.specs.Writers.{last_of, has_seen, is_whole, faults_of};

use crate::sent::Sent;
use sim_base::{Bench, Drive, Level, Watcher, WriteEnd};
use std::snapshot::Snapshot;
use vcd_text::WaveWriter;

/// Writes the rows into a wave, and keeps the bytes.
#[derive(Drop)]
pub(crate) struct Leg<'a, B: Bench> {
    pub(crate) writer: WaveWriter<'a, B>,
    pub(crate) sent: &'a mut Sent,
    /// The bench as it was when the leg began.
    pub(crate) begun: &'a Snapshot<B>,
}

impl<'a, B: Bench> Watcher for Leg<'a, B> {
    ghost use Rattle.live_leg.specs.Legs.{LegTied, leg_place, LegStands, LegStopped};
    ghost use Rattle.vcd_text.specs.Writers.{last_of, has_seen, is_whole, faults_of};

    ghost stands = { LegStands B.outside };

    ghost stopped = { LegStopped B.outside };

    ghost whole = { λ w. is_whole B.outside w.writer };

    ghost last = { λ w. last_of w.writer };

    ghost seen = { λ w levels. has_seen w.writer levels };

    ghost faults = { λ w. faults_of B.outside w.writer };

    ghost Place = { LegTied };

    ghost place = { leg_place B.outside };

    fn row(&mut self, t: u64, levels: &[Level], drives: &[Drive], changed: &[u16]) -> WriteEnd {
        self.writer.row(t, levels, drives, changed)
    }

    fn byte(&mut self, b: u8) -> WriteEnd {
        self.sent.push(b);
        WriteEnd::Ok
    }
}
