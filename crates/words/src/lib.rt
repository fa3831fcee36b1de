// Words of the cipher: their exclusive or and linear map, the diffusion of four words and of two bytes, and the S-box.
#![tactic(auto)]

mod group;
mod pair;
mod sbox;
mod word;

pub use group::{Group, diffuse};
pub use pair::{Pair, couple};
pub use sbox::substitute;
pub use word::Word;
