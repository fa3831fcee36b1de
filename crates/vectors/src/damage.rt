// Damaged copies: both implementations give the same verdict on each, and none but those of the exchange open.
use crate::bytes::{cut, cut_last};
use crate::case::Case;
use crate::inputs::{Inputs, Shape};
use crate::sides::Pair;
use crate::tally::Damage;
use reference::{Kind, Setting};
use std::alloc::{AllocError, Global};

// The copies of one mixer's sealings, and what became of them so far.
#[derive(Drop)]
struct Copies<'a> {
    pair: Pair<'a>,
    tally: Damage,
}

fn flipped(heap: Global, bytes: &[u8], bit: usize) -> Result<Vec<u8>, AllocError> {
    let mut all = bytes.to_vec(heap)?;
    if let Some(byte) = all.get_mut(bit / 8) {
        *byte ^= 1 << (bit % 8);
    }
    Ok(all)
}

impl Copies<'_> {
    // Opens one copy; the tag is the last block of `sealed`.
    fn offer(&mut self, case: Case, setting: &Setting, sealed: &[u8]) -> anyhow::Result<()> {
        let (cipher, tag) = cut_last(sealed, case.kind.block_len());
        match self.pair.sides.open(case, setting, cipher, tag)? {
            Err(_) => self.tally.refused = self.tally.refused.saturating_add(1),
            // The exchange hides and binds nothing: some copies of its sealed bytes open, to another message.
            Ok(_) if case.kind == Kind::Exchange => {
                self.tally.opened = self.tally.opened.saturating_add(1);
            }
            Ok(_) => return Err(case.fails("both open a damaged copy")),
        }
        Ok(())
    }

    // Flips each bit of key, nonce, data, ciphertext and tag in turn.
    fn flips(&mut self, inputs: &Inputs, sealed: &[u8]) -> anyhow::Result<()> {
        let heap = self.pair.sides.heap;
        let kind = self.pair.kind;
        let whole = [
            inputs.key.as_slice(),
            inputs.nonce.as_slice(),
            inputs.ad.as_slice(),
            sealed,
        ]
        .concat(heap)?;
        for bit in 0..whole.len().saturating_mul(8) {
            let copy = flipped(heap, &whole, bit)?;
            let (key, rest) = cut(&copy, inputs.key.len());
            let (nonce, rest) = cut(rest, inputs.nonce.len());
            let (ad, sealed) = cut(rest, inputs.ad.len());
            let setting = Setting {
                kind,
                key,
                nonce,
                ad,
            };
            self.offer(Case::of(kind, "flipped bit", bit), &setting, sealed)?;
        }
        Ok(())
    }

    // Cuts out or doubles the block at `from`, or swaps it with the next.
    fn edit_pair(&mut self, setting: &Setting, sealed: &[u8], from: usize) -> anyhow::Result<()> {
        let heap = self.pair.sides.heap;
        let (front, rest) = cut(sealed, from);
        let (first, rest) = cut(rest, setting.kind.block_len());
        let (second, back) = cut(rest, setting.kind.block_len());
        let case = Case::of(setting.kind, "edited block from byte", from);
        let without = [front, second, back].concat(heap)?;
        self.offer(case, setting, &without)?;
        let doubled = [front, first, first, second, back].concat(heap)?;
        self.offer(case, setting, &doubled)?;
        let swapped = [front, second, first, back].concat(heap)?;
        self.offer(case, setting, &swapped)
    }

    // Edits each block but the last, which is the tag.
    fn block_edits(&mut self, setting: &Setting, sealed: &[u8]) -> anyhow::Result<()> {
        let n = setting.kind.block_len();
        for from in (0..sealed.len().saturating_sub(n)).step_by(n) {
            self.edit_pair(setting, sealed, from)?;
        }
        Ok(())
    }

    // Opens with nonce or data one zero byte longer. Each has its lines: a closure that says which is no plainer.
    fn longer(&mut self, shape: Shape, sealed: &[u8]) -> anyhow::Result<()> {
        let kind = self.pair.kind;
        let mut inputs = Inputs::of(self.pair.sides.heap, shape)?;
        inputs.nonce.push(0)?;
        let case = Case::of(kind, "longer nonce, now of length", inputs.nonce.len());
        self.offer(case, &inputs.setting(kind), sealed)?;
        inputs = Inputs::of(self.pair.sides.heap, shape)?;
        inputs.ad.push(0)?;
        let case = Case::of(kind, "longer data, now of length", inputs.ad.len());
        self.offer(case, &inputs.setting(kind), sealed)
    }

    // All the damaged copies of one sealing.
    fn damage(&mut self, shape: Shape) -> anyhow::Result<()> {
        let kind = self.pair.kind;
        let inputs = Inputs::of(self.pair.sides.heap, shape)?;
        let setting = inputs.setting(kind);
        let case = Case::of(
            kind,
            "sealing to damage, of message length",
            inputs.message.len(),
        );
        let sealed = self.pair.sides.round_trip(case, &setting, &inputs.message)?;
        self.flips(&inputs, &sealed)?;
        self.block_edits(&setting, &sealed)?;
        self.longer(shape, &sealed)
    }
}

impl Pair<'_> {
    // The copies of three sealings.
    pub(crate) fn damaged_copies(&self) -> anyhow::Result<Damage> {
        let b = self.kind.block_len();
        let rows = [[b, 8, 10, 51], [b, 0, 0, 0], [b, b, 40, 100]];
        let mut copies = Copies {
            pair: *self,
            tally: Damage {
                kind: self.kind,
                refused: 0,
                opened: 0,
            },
        };
        for lengths in &rows {
            copies.damage(Shape::from(*lengths))?;
        }
        let Copies { pair: _, tally } = copies;
        Ok(tally)
    }
}
