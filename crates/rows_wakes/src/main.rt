//! Counts how often an Uno that is alone on its board is woken, prints what is another number than was worked by hand, and
//! how many firmwares there were.
#![tactic(auto)]

mod lone;
mod unseen;

use lone::wakes_of;
use std::io;

fn main(rt: HostRuntime) -> io::Result<()> {
    let mut count: u32 = 0;
    for (hex, micros, wakes) in [
        // the word 0xFFFF halts the core in cycle 0
        (":00000001FF\n", 1, 1),
        // timer 0 toggles OC0A each 4 cycles, and the core sleeps from cycle 9 on
        (
            ":12000000569A03E007BD02E404BD01E003BF05BD88952E\n:00000001FF\n",
            2,
            21,
        ),
        // the same before power-down: SLEEP in cycle 10 stops the timer's clock in the cycle of its first toggle
        (
            ":14000000569A03E007BD02E404BD01E005BD05E003BF889547\n:00000001FF\n",
            1_000_000,
            11,
        ),
        // 62 time-outs of the watchdog in a second of power-down, 256,000 cycles apart, of which each costs five wakes: the
        // time-out, its interrupt, RETI, a jump and SLEEP
        (
            ":020000000CC032\n:18001800189508E10093600000E40093600005E003BF78948895FECFD3\n:00000001FF\n",
            1_000_000,
            319,
        ),
        // a second of idle sleep with the same interrupts has the same wakes
        (
            ":020000000CC032\n:18001800189508E10093600000E40093600001E003BF78948895FECFD7\n:00000001FF\n",
            1_000_000,
            319,
        ),
    ] {
        count = count.saturating_add(1);
        play(&rt, hex, micros, wakes)?;
    }
    println!(rt; "{count} firmwares")
}

/// Runs a firmware, and says where it is woken more or less often.
fn play(rt: &HostRuntime, hex: &str, micros: u32, wakes: u64) -> io::Result<()> {
    match wakes_of(rt.alloc(), hex.as_bytes(), micros) {
        Some(found) if found == wakes => Ok(()),
        Some(found) => println!(rt; "{found} wakes in place of {wakes}: {hex}"),
        None => println!(rt; "not run: {hex}"),
    }
}
