// What every mixer is to the layers above it.
ghost use Rattle.std.specs.Prelude.{◌≡◌, ℕ};
ghost use Rattle.mixers.specs.Halves.{Halves, Lawful};
ghost use Rattle.mixers.specs.View.{view};

use crate::state::State;

// A mixer's meaning is its block length `B`, its mark byte and one fixed function on states. Whatever is built on
// mixers is proved from these three and their laws, so it holds of every mixer.
pub trait Mixer<const B: usize> {
    // the mark byte, by which what is sealed names its mixer; no enum, since whoever writes a mixer gives it a mark
    ghost mark_byte: { Self → ℕ };

    // the function on states
    ghost mixing: { Self → Halves → Halves };

    // what each mixer owes
    ghost laws: { (m : Self) → Lawful B (mark_byte m) (mixing m) };

    // Replaces the state by the function's value.
    fn mix(&self, state: &mut State<B>)
        ensures { view state.new ≡ mixing self.now (view state.old) };

    fn block_len(&self) -> usize
        ensures { result ≡ B }
    {
        B
    }

    fn mark(&self) -> u8
        ensures { result ≡ mark_byte self.now };
}
