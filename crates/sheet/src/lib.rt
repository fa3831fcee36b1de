// Grade sheets and their text, one to one. So far it has the faults, and columns and lines of the text.
#![tactic(auto)]

mod column;
mod fault;
mod limits;
mod lines;
mod numeral;
mod position;
mod zone;

pub use fault::{ColumnFault, Fault, Place};
pub use position::Position;
pub use zone::Zone;
