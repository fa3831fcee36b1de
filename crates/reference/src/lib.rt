// A second implementation of the mixers and the mode, plain and slow, on lists of bytes. It shares no code with the
// proved library, which is compared with it. Of this crate safety is proved, bounds of some lengths, names, marks and codes,
// not what it computes.
#![tactic(auto)]

mod bytes;
mod field;
mod jhae;
mod kind;
mod layer;
mod padding;
mod reference;
mod refusal;
mod setting;
#[cfg(test)]
mod tests;
mod width;

pub use kind::{Kind, UnknownKind};
pub use reference::Reference;
pub use refusal::{Failure, Refusal};
pub use setting::Setting;
