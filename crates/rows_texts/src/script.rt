//! Rows of scripts: how many lines act, and the last of them.
use crate::answer::Answer;
use crate::refused::refused;
use input_script::read_script;
use input_texts::{Script, ScriptRow};
use std::alloc::Global;

pub fn script_answer(alloc: Global, made: &mut Answer, text: &[u8]) {
    if text.len() > 1_048_576 {
        made.run_out();
        return;
    }
    match read_script(alloc, text) {
        Ok(script) => answer_for(made, &script),
        Err(fault) => refused(made, &fault),
    }
}

fn answer_for(made: &mut Answer, script: &Script) {
    match script.as_slice() {
        [.., row] => {
            made.tell_number("", script.len() as u64);
            tell_row(made, row);
        }
        [] => made.tell("none"),
    }
}

fn tell_row(made: &mut Answer, row: &ScriptRow) {
    let action = if row.press { " press " } else { " set " };
    made.tell_number(": line ", u64::from(row.line));
    made.tell_number(" cycle ", u64::from(row.cycle));
    made.tell_all(&[action, row.part.as_str()]);
    made.tell_number(" ", u64::from(row.value));
}
