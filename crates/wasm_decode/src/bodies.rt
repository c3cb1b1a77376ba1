//! Bodies.
ghost use Rattle.std.specs.Prelude.{◌≡◌, ◌<◌, ◌^◌, length, Bool};
ghost use Rattle.wasm_decode.specs.ItemText.{local_run as run_form, locals_of, body as body_form, room_of, bodies as bodies_form, body_of, rest_of, is_none_left};
ghost use Rattle.wasm_binary.specs.Lists.{sized, repeated};
ghost use Rattle.wasm_binary.specs.Reads.{Decodes};

use crate::expressions::read_expr;
use crate::module::{Body, LocalRun};
use sim_base::{Fault, List};
use std::alloc::Global;
use wasm_binary::{Reader, close, count_exactly, count_to, index, judged};
use wasm_code::FuncType;

/// At most so many locals of a function, its parameters with them.
const LOCALS: usize = 1024;

/// The bodies of functions of these types.
pub fn bodies(
    alloc: Global,
    reader: &mut Reader,
    types: &[FuncType],
    functions: &[u32],
) -> Result<List<Body>, Fault>
    ensures { Decodes (bodies_form types.now functions.now) result reader.old reader.new }
{
    count_exactly(reader, functions.len())?;
    body_items(alloc, reader, types, functions)
}

fn body_items(
    alloc: Global,
    reader: &mut Reader,
    types: &[FuncType],
    functions: &[u32],
) -> Result<List<Body>, Fault>
    ensures { Decodes (repeated (body_of types.now) rest_of is_none_left functions.now) result reader.old reader.new }
{
    let mut bodies = List::new(alloc);
    for i in 0..functions.len() {
        let room = room_for(types, functions[i]);
        let body = sized_body(alloc, reader, room, i + 1 < functions.len())?;
        bodies.push(body)?;
    }
    Ok(bodies)
}

/// Room for so many locals beside the parameters.
fn room_for(types: &[FuncType], kind: u32) -> u32
    ensures { result ≡ room_of types.now kind }
{
    match types.get(kind as usize) {
        Some(t) => LOCALS.saturating_sub(t.params.len()) as u32,
        None => LOCALS as u32,
    }
}

/// A body with its size; wanted: further bodies are wanted behind it.
fn sized_body(alloc: Global, reader: &mut Reader, room: u32, wanted: bool) -> Result<Body, Fault>
    ensures { Decodes (sized wanted (body_form room)) result reader.old reader.new }
{
    let size = index(reader)?;
    let mut inner = reader.window(size);
    let body = read_body(alloc, &mut inner, room)?;
    close(reader, &inner, size, wanted)?;
    Ok(body)
}

fn read_body(alloc: Global, reader: &mut Reader, room: u32) -> Result<Body, Fault>
    ensures { Decodes (body_form room) result reader.old reader.new }
{
    let count = index(reader)?;
    let locals = local_runs(alloc, reader, room, count)?;
    let code = read_expr(alloc, reader)?;
    Ok(Body { locals, code })
}

fn local_runs(
    alloc: Global,
    reader: &mut Reader,
    room: u32,
    count: u32,
) -> Result<List<LocalRun>, Fault>
    ensures { Decodes (locals_of room count) result reader.old reader.new }
{
    let mut runs = List::new(alloc);
    let mut left = room;
    for i in 0..count {
        let run = local_run(reader, left)?;
        left = left.saturating_sub(run.count);
        runs.push(run)?;
    }
    Ok(runs)
}

fn local_run(reader: &mut Reader, room: u32) -> Result<LocalRun, Fault>
    ensures { Decodes (run_form room) result reader.old reader.new }
{
    let count = count_to(reader, room)?;
    let value = judged(reader)?;
    Ok(LocalRun { count, value })
}
