// The four-word rule, once for every kind of word.
ghost use Rattle.std.specs.Prelude.{◌≡◌};
ghost use Rattle.words.specs.Diffusion.{diffused};

use crate::word::Word;

// Four words of one kind. A struct, since an array is a list of any length in a definition.
#[derive(Clone, Copy, Debug, PartialEq, Eq)]
pub struct Group<W> {
    pub x0: W,
    pub x1: W,
    pub x2: W,
    pub x3: W,
}

impl<W> Group<W> {
    // `f` at each of the four.
    pub fn map<V, F: Fn(W) -> V>(self, f: F) -> Group<V>
        requires { F.IsAlwaysCallable f }
        ensures x0 { F.post f self.x0 result.x0 }
        ensures x1 { F.post f self.x1 result.x1 }
        ensures x2 { F.post f self.x2 result.x2 }
        ensures x3 { F.post f self.x3 result.x3 }
    {
        Group {
            x0: f(self.x0),
            x1: f(self.x1),
            x2: f(self.x2),
            x3: f(self.x3),
        }
    }
}

// Turns X0 to X3 into Y0 to Y3.
#[tactic(auto, unfolding(crate::specs::Diffusion::diffused))]
pub fn diffuse<W: Word>(x: Group<W>) -> Group<W>
    ensures { result ≡ diffused W.plus W.linear_map x }
{
    let y0 = x.x0.xor(x.x2).xor(x.x3).xor(x.x1.xor(x.x3).linear());
    let y1 = x.x1.xor(x.x3).xor(y0).xor(x.x2.xor(y0).linear());
    let y2 = x.x2.xor(y0).xor(y1).xor(x.x3.xor(y1).linear());
    let y3 = x.x3.xor(y1).xor(y2).xor(y0.xor(y2).linear());
    Group {
        x0: y0,
        x1: y1,
        x2: y2,
        x3: y3,
    }
}
