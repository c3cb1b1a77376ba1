//! Rows of projects: the firmware, and of each chip its name, its module and the file of its pins.
use crate::answer::Answer;
use crate::refused::refused;
use project_files::{Project, read_project};
use std::alloc::Global;

pub fn project_answer(alloc: Global, made: &mut Answer, text: &[u8]) {
    match read_project(alloc, text) {
        Ok(project) => answer_for(made, &project),
        Err(fault) => refused(made, &fault),
    }
}

fn answer_for(made: &mut Answer, project: &Project) {
    made.tell_all(&["firmware '", project.firmware.as_str(), "'"]);
    for chip in project.chips.as_slice() {
        made.tell_all(&["; chip ", chip.name.as_str(), " "]);
        made.tell_all(&[chip.binary.as_str(), " ", chip.json.as_str()]);
    }
}
