// The two permutations of Artemia, on states in machine words.
#![tactic(auto)]

mod lane;
mod rounds;
mod short;

pub use lane::Lane;
pub use rounds::permute;
pub use short::Short;
