// The mixers by themselves: block length, mark, and the function on states.
use crate::bytes::{reversed, sample};
use crate::fields::unhex;
use crate::library;
use crate::sides::Pair;
use crate::tally::Mixings;
use reference::Kind;

// How many states are mixed besides the one of zeros.
const STATES: u32 = 1000;

// What the state of zeros becomes, highest byte first.
fn mixed_zeros(kind: Kind) -> &'static str {
    match kind {
        Kind::Narrow => "3a9eabbccd33af7fecf1abe96cadc1b67d790abd626d33e26f0cfc7e605827c7",
        Kind::Wide => {
            "e51ffef4d4ccbd041ec980258b26cba874a3282c1831aa4bca57519eac03997172812271abc8dd3b160d177a9a19cb97bb20540ec5af1047f73a19651b16018b"
        }
        Kind::Exchange => "0000000000000000000000000000000000000000000000000000000000000000",
    }
}

impl Pair<'_> {
    fn zeros(&self) -> anyhow::Result<()> {
        let heap = self.sides.heap;
        let case = self.case("state of zeros", 0);
        let state = vec![in heap; 0u8; 2 * self.kind.block_len()]?;
        let mixed = self.sides.mix(case, &state)?;
        if mixed != reversed(heap, &unhex(heap, mixed_zeros(self.kind))?)? {
            return Err(case.fails("both mix it to another state than they should"));
        }
        Ok(())
    }

    // States without a pattern.
    fn samples(&self) -> anyhow::Result<()> {
        let len = 2 * self.kind.block_len();
        for i in 0..STATES {
            let case = self.case("sampled state", i as usize);
            let _mixed = self.sides.mix(case, &sample(self.sides.heap, i, len)?)?;
        }
        Ok(())
    }

    // All of these for one mixer.
    pub(crate) fn mixings(&self) -> anyhow::Result<Mixings> {
        let kind = self.kind;
        if library::block_len(kind) != kind.block_len() || library::mark(kind) != kind.mark() {
            let case = self.case("block length", kind.block_len());
            return Err(case.fails("the two differ in it, or in the mark"));
        }
        self.zeros()?;
        self.samples()?;
        Ok(Mixings {
            kind,
            states: STATES as usize + 1,
        })
    }
}
