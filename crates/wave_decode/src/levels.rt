//! The levels of variables.
ghost use Rattle.std.specs.Prelude.{◌≡◌, ◌≤◌, ◌<◌, ◌∷◌, [], length, IfOk};
ghost use Rattle.std.specs.Option.{option_map};
ghost use Rattle.sim_base.specs.Reads.{Reads};
ghost use Rattle.sim_refusals.specs.Refusals.{WaveVar};
ghost use Rattle.wave_decode.specs.Frames.{AreHeard};
ghost use Rattle.wave_decode.specs.Bodies.{flat, of_body};
ghost use Rattle.wave_decode.specs.Rising.{IsRising};
ghost use Rattle.wave_decode.specs.Levels.{last_cycle, levels_text, names_given};

use crate::body::{Body, read_body};
use crate::head::read_head;
use sim_base::{Fault, Level, List, Place, Refusal};
use sim_refusals::numbers::WAVE_VAR;
use std::alloc::Global;
use std::marker::Model;

/// So many cycles, and for each line that was asked for its levels at rising cycles from 0 on.
#[derive(Drop)]
pub struct LevelRows {
    pub cycles: u32,
    pub rows: List<List<(u32, Level)>>,
}

impl Model for LevelRows {
    ghost use Rattle.wave_decode.specs.Rising.{IsRising};
    ghost use Rattle.wave_decode.specs.Levels.{Levels};

    ghost Value = { Levels };

    ghost view = { λ l. record { cycles = l.cycles; rows = l.rows } };
}

fn no_variable() -> Fault
    ensures { result ≡ Fault.Refused (record { number = WaveVar; place = Place.Whole }) }
{
    Fault::Refused(Refusal {
        number: WAVE_VAR,
        place: Place::Whole,
    })
}

fn one_line(alloc: Global, body: Body) -> Result<LevelRows, Fault>
    requires early { body.cycles ≤ last_cycle }
    requires first { IsRising 0 body.first.items }
    ensures heard { IfOk result AreHeard }
    ensures reads { Reads (λ l. l) result (Ok (record { cycles = body.cycles; rows = body.first.items ∷ [] })) }
{
    let mut rows = List::new(alloc);
    rows.push(List::from_vec(body.first))?;
    Ok(LevelRows {
        cycles: body.cycles,
        rows,
    })
}

fn two_lines(alloc: Global, body: Body) -> Result<LevelRows, Fault>
    requires early { body.cycles ≤ last_cycle }
    requires first { IsRising 0 body.first.items }
    requires second { IsRising 0 body.second.items }
    ensures heard { IfOk result AreHeard }
    ensures reads { Reads (λ l. l) result (Ok (record { cycles = body.cycles; rows = body.first.items ∷ body.second.items ∷ [] })) }
{
    let mut rows = List::new(alloc);
    rows.push(List::from_vec(body.first))?;
    rows.push(List::from_vec(body.second))?;
    Ok(LevelRows {
        cycles: body.cycles,
        rows,
    })
}

/// The lines of one variable or of two, where the wave has them.
fn choose(
    alloc: Global,
    first: Option<usize>,
    second: Option<Option<usize>>,
    body: Body,
) -> Result<LevelRows, Fault>
    requires early { body.cycles ≤ last_cycle }
    requires first { IsRising 0 body.first.items }
    requires second { IsRising 0 body.second.items }
    ensures heard { IfOk result AreHeard }
    ensures reads { Reads (λ l. l) result (of_body first second (record { cycles = body.cycles; first = body.first.items; second = body.second.items })) }
{
    match (first, second) {
        (None, _) => Err(no_variable()),
        (Some(_), None) => one_line(alloc, body),
        (Some(_), Some(None)) => Err(no_variable()),
        (Some(_), Some(Some(_))) => two_lines(alloc, body),
    }
}

fn flat(second: Option<Option<usize>>) -> Option<usize>
    ensures { result ≡ flat second }
{
    match second {
        Some(i) => i,
        None => None,
    }
}

/// The levels that a wave says of the variables of one or two names. Its head is that of any 1 to 8,930
/// variables whose names differ, and each may have each value; else the text is as for `read_wave` of
/// `vcd_text`, and ends at any cycle above 0.
/// Refuses with 90 WaveHead, 91 WaveLine, 92 WaveTime, 93 WaveName and 94 WaveEnd, each at a Line from 1,
/// and then with 96 WaveVar where the wave has no variable of a name.
pub fn read_levels(
    alloc: Global,
    bytes: &[u8],
    first: &str,
    second: Option<&str>,
) -> Result<LevelRows, Fault>
    requires { length bytes.now < 4294967295 }
    ensures reads { Reads (λ l. l) result (levels_text first.now (option_map (λ s. s.now) second.entry) bytes.now) }
    ensures heard { IfOk result AreHeard }
    ensures lines { IfOk result (λ l. length l.rows ≡ names_given (option_map (λ s. s.now) second.entry)) }
{
    let head = match read_head(alloc, first, second, bytes) {
        Ok(head) => head,
        Err(fault) => return Err(fault),
    };
    match read_body(alloc, &head, head.first, flat(head.second)) {
        Ok(body) => choose(alloc, head.first, head.second, body),
        Err(fault) => Err(fault),
    }
}
