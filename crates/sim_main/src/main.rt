//! The program: words and system in, status out (`sim_cli`).
#![tactic(auto)]

ghost use Rattle.std.specs.Prelude.{◌≡◌, ◌<◌};

use bench_real::RealBench;
use sim_base::Steps;
use sim_cli::simulate;
use std::alloc::{AllocError, Global};
use std::env;
use std::env::Env;
use std::io::ErrorKind;
use std::marker::Brand;
use std::process::ExitCode;
use std::rt::Runtime;
use std::sync::ledger::{Blank, Ledger};

/// The words after the program's name; one that is not UTF-8 makes all of them none.
fn words(rt: &(impl Env + AllocGlobal)) -> Result<Vec<String>, AllocError> {
    let mut words = Vec::new(rt.alloc());
    match env::args(rt) {
        Ok(args) => {
            for word in args.skip(1) {
                words.push(word)?;
            }
        }
        Err(error) if error.kind() == ErrorKind::OutOfMemory => return Err(AllocError),
        Err(_) => {}
    }
    Ok(words)
}

fn run<L: Ledger, R: Runtime>(alloc: Global, words: &[String], rt: R, blank: Blank) -> u8
    requires name { blank.name ≡ L.name }
    requires parts { blank.parts ≡ L.parts }
    requires some { 0 < L.parts }
{
    let mut bench = RealBench::new(rt);
    let mut steps: Steps<L> = Steps::new(blank);
    simulate(alloc, words, &mut bench, &mut steps)
}

fn main(rt: HostRuntime) -> ExitCode {
    match words(&rt) {
        Ok(words) => ExitCode::from(run::<Brand, HostRuntime>(
            rt.alloc(),
            &words,
            rt,
            Blank::new(1),
        )),
        Err(_) => {
            let _ = eprintln!(rt; "out of memory");
            ExitCode::from(7)
        }
    }
}
