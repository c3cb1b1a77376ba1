//! What a wave shows.

/// What a variable shows: the level of a net, or what a pin drives strongly (`out`) or weakly
/// (`pull`). Nets and pins count from 0, all pins of part 0 before those of part 1.
#[derive(Clone, Copy)]
pub enum Source {
    Net(u16),
    Strong(u16),
    Weak(u16),
}

/// A variable of a wave, under its name.
#[derive(Drop)]
pub struct Variable {
    pub name: String,
    pub shows: Source,
}
