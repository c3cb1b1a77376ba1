//! The levels of nets word for word by the definition: slow, for small boards, to test faster programs against.
//! `plain_levels` answers exactly Resolve. It fails only if memory runs out.
#![tactic(auto)]

mod plain;

pub use plain::plain_levels;
