// Sealing and opening byte strings under any mixer, with associated data: the mode JHAE. docs/CIPHER.md has it in words.
#![tactic(auto)]

mod bytes;
mod chain;
mod fault;
mod guard;
mod limits;
mod opening;
mod padding;
mod sealing;
mod setting;
mod way;

pub use fault::Fault;
pub use opening::open;
pub use sealing::seal;
pub use setting::Setting;
