//! What a run changes beside its slots.
use sim_base::List;
use wasm_num::Memory;

/// The memory, and the globals as slots.
#[derive(Drop)]
pub struct Store {
    pub memory: Memory,
    pub globals: List<u64>,
}
