//! Says of each file that its words name whether it is an accepted module, or by which rule it is refused and where;
//! behind `--cuts`, the same of the first bytes of a file, for each count of bytes.
//! tools/modules/make.py makes the modules, the words and the expected lines from rows that were worked out by hand.
#![tactic(auto)]

mod answer;
mod cuts;

use answer::answer_to;
use cuts::cuts;
use std::{env, fs, io};

fn main(rt: HostRuntime) -> io::Result<()> {
    let mut is_cut = false;
    for word in env::args(&rt)?.skip(1) {
        if word.as_str() == "--cuts" {
            is_cut = true;
        } else {
            tell(&rt, word.as_str(), is_cut)?;
            is_cut = false;
        }
    }
    Ok(())
}

/// The line of a file, or those of its first bytes.
fn tell(rt: &HostRuntime, name: &str, is_cut: bool) -> io::Result<()> {
    let bytes = fs::read(rt, name)?;
    if is_cut {
        return cuts(rt, name, &bytes);
    }
    let answer = answer_to(rt.alloc(), &bytes);
    println!(rt; "{name}: {answer}")
}
