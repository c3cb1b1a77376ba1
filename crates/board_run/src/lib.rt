//! The engine: a board of parts that is run from event to event, in which a part is woken only in its active
//! cycles.
//! A run hands out exactly the rows and bytes of the board that is stepped cycle by cycle, whatever parts there
//! are. Only `Board::new` and `Board::give` allocate; a run fails only if a write does. The loop is `Engine::run`
//! (`engine.rt`). From each cycle it continues in one of two ways (`advance`): - One part runs alone, if nothing
//! changed and no other is due: `find_alone` (`jump.rt`), `stretch` (`alone.rt`). - Else it skips to the next event
//! (`skip`, `jump.rt`), of which `event` is one cycle: its row (`show`), a turn of each part that may be active
//! (`turn`), after which the nets have what it drives (`tell`), and the bytes (`hand_sent`). `docs/ARCHITECTURE.md`
//! follows one event by hand.
#![tactic(auto)]

mod alone;
mod board;
mod engine;
mod gather;
mod hand;
mod jump;
mod part_set;
mod reading;
mod script;
mod show;
mod start;
mod still;
mod tell;
mod turn;
mod unwatched;

pub use board::{Board, RunEnd};
pub use gather::{is_same_drive, level_of_net};
pub use unwatched::Unwatched;
