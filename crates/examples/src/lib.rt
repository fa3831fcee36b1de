// Worked examples of the definitions, all of them in one contract.
#![tactic(auto)]

ghost use Rattle.std.specs.Prelude.{◌≡◌, [], ◌∷◌, replicate};
ghost use Rattle.mixers.specs.Exchange.{exchanged};
ghost use Rattle.mixers.specs.View.{view};
ghost use Rattle.mode.specs.Sealing.{seal_leaves};
ghost use Rattle.examples.specs.Worked.{WorkedExamples, exchange_example, unlike, exchange_of_unlike, narrow_of_unlike, wide_of_unlike};

use mixers::{Block, Exchange, Mixer, Narrow, State, Wide};
use mode::{Setting, seal};

// What the examples that are run gave.
#[derive(Clone, Copy)]
pub struct Worked {
    // ciphertext and tag of the empty message under the exchange
    pub sealed: [u8; 32],
    // the mixings of a state of unlike bytes
    pub exchange: State<16>,
    pub narrow: State<16>,
    pub wide: State<32>,
    // the marks of narrow, wide and the exchange
    pub marks: [u8; 3],
}

// Runs some of the examples, and answers what they gave. All of them hold of the definitions that the contracts of the
// library cite.
pub fn worked_examples() -> Worked
    ensures hold { WorkedExamples }
    ensures sealed { result.sealed ≡ exchange_example }
    ensures exchange { view result.exchange ≡ exchange_of_unlike }
    ensures narrow { view result.narrow ≡ narrow_of_unlike }
    ensures wide { view result.wide ≡ wide_of_unlike }
    ensures marks { result.marks ≡ 1 ∷ 2 ∷ 3 ∷ [] }
{
    computed();
    Worked {
        sealed: seal_nothing(),
        exchange: mix_unlike(&Exchange),
        narrow: mix_unlike(&Narrow),
        wide: mix_unlike(&Wide),
        marks: [Narrow.mark(), Wide.mark(), Exchange.mark()],
    }
}

// Seals the empty message under a key of bytes 0x11, with nonce and data empty.
fn seal_nothing() -> [u8; 32]
    ensures { result ≡ seal_leaves exchanged 16 (replicate 16 0x11) [] [] [] (replicate 32 0) }
{
    let mut out = [0; 32];
    let setting = Setting {
        key: &[0x11; 16],
        nonce: &[],
        ad: &[],
    };
    let _ = seal(&Exchange, setting, &[], &mut out);
    out
}

// Mixes a state of unlike bytes.
fn mix_unlike<const B: usize, M: Mixer<B>>(mixer: &M) -> State<B>
    ensures { view result ≡ M.mixing mixer.now (unlike B) }
{
    let mut state = State {
        upper: Block::of(b" !\"#$%&'()*+,-./0123456789:;<=>?"),
        lower: Block::of(b"@ABCDEFGHIJKLMNOPQRSTUVWXYZ[\\]^_"),
    };
    mixer.mix(&mut state);
    state
}

// The examples, computed by the prover.
fn computed()
    ensures { WorkedExamples }
{}
