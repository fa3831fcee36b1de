// Mixers: a block length, a mark byte and one fixed function on states of two blocks.
#![tactic(auto)]

mod block;
mod exchange;
mod mixer;
mod narrow;
mod state;
mod wide;
mod words_of;

pub use block::Block;
pub use exchange::Exchange;
pub use mixer::Mixer;
pub use narrow::Narrow;
pub use state::State;
pub use wide::Wide;
