// Mixing, sealing and opening for C to call. The speed harness in bench/ links it.
#![tactic(auto)]

mod answer;
mod narrow;
mod wide;

pub use answer::Answer;
pub use narrow::{NarrowState, nirgusel_narrow_mix, nirgusel_narrow_open, nirgusel_narrow_seal};
pub use wide::{WideState, nirgusel_wide_mix, nirgusel_wide_open, nirgusel_wide_seal};
