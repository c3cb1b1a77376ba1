//! Nets for the gate: plays worked nets and every combination of drives on three pins (`rows`), or resolves a large
//! board 1,000,000 times (`bench`, which `bench/nets.sh` measures).
#![tactic(auto)]

mod bench;
mod rows;

use std::{env, io};

fn main(rt: HostRuntime) -> io::Result<()> {
    for word in env::args(&rt)?.skip(1) {
        match word.as_str() {
            "rows" => rows::play(&rt)?,
            "bench" => bench::bench(&rt)?,
            other => println!(rt; "{other}: rows or bench")?,
        }
    }
    Ok(())
}
