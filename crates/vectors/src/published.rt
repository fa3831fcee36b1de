// The vectors that the designers published, in their convention: strings of bits, most significant first; key and nonce
// are numbers; behind the message stand the lengths of nonce, data and message, and a bit 1. docs/VECTORS.md has more.
use crate::bits::{bits_of, extended, packed, push_number};
use crate::bytes::{cut, fill, joined, reversed, sum};
use crate::case::Case;
use crate::fields::{Fields, each_line};
use crate::inputs::Inputs;
use crate::sides::{Side, Sides};
use reference::{Kind, Setting};
use std::alloc::{AllocError, Global};

// The inputs as bits, and the bytes that are published.
#[derive(Drop)]
struct Vector {
    kind: Kind,
    bits: Inputs,
    sealed: Vec<u8>,
}

impl Vector {
    // A line has mixer, letter, key, nonce, data, message, ciphertext and tag.
    fn of(heap: Global, line: &str) -> anyhow::Result<Vector> {
        let mut fields = Fields::of(line);
        let kind = fields.kind()?;
        let _letter = fields.next();
        Ok(Vector {
            kind,
            bits: fields.inputs(heap, bits_of)?,
            sealed: fields.sealed(heap)?,
        })
    }

    fn block_bits(&self) -> usize {
        8 * self.kind.block_len()
    }

    // The width of the nonce's length. The reference has it too, and is held to this one.
    fn nonce_width(&self) -> u32 {
        match self.kind {
            Kind::Wide => 9,
            Kind::Narrow | Kind::Exchange => 8,
        }
    }

    // The data, a bit 1 and zeros; nothing for nothing.
    fn padded_ad(&self, heap: Global) -> Result<Vec<u8>, AllocError> {
        let mut bits = self.bits.ad.clone()?;
        if !bits.is_empty() {
            bits.push(1)?;
        }
        fill(&mut bits, self.block_bits())?;
        packed(heap, &bits)
    }

    // The message, the three lengths, a bit 1 and zeros.
    fn padded_message(&self, heap: Global) -> Result<Vec<u8>, AllocError> {
        let mut bits = self.bits.message.clone()?;
        push_number(&mut bits, self.bits.nonce.len(), self.nonce_width())?;
        push_number(&mut bits, self.bits.ad.len(), 24)?;
        push_number(&mut bits, self.bits.message.len(), 64)?;
        bits.push(1)?;
        fill(&mut bits, self.block_bits())?;
        packed(heap, &bits)
    }

    // A number as a block, highest byte first.
    fn block(&self, heap: Global, bits: &[u8]) -> Result<Vec<u8>, AllocError> {
        packed(heap, &extended(heap, bits, self.block_bits())?)
    }
}

// The chain: x' and x as one list, highest byte first, and the block that came in last.
#[derive(Drop)]
struct Link {
    state: Vec<u8>,
    last: Vec<u8>,
}

// A sealing in the published convention, with the mixing of one of the two implementations.
#[derive(Clone, Copy)]
struct Sealing<'a, S> {
    heap: Global,
    side: &'a S,
    vector: &'a Vector,
}

impl<S: Side> Sealing<'_, S> {
    // The mixing of a state that is written highest byte first.
    fn mixed(&self, state: &[u8]) -> Result<Vec<u8>, AllocError> {
        let lowest_first = reversed(self.heap, state)?;
        reversed(
            self.heap,
            &self.side.mixed(self.vector.kind, &lowest_first)?,
        )
    }

    // Mixes, and adds the next block to x' and the last one to x.
    fn next(&self, link: &Link, block: &[u8]) -> Result<Link, AllocError> {
        let state = self.mixed(&link.state)?;
        let added = joined(self.heap, block, &link.last)?;
        Ok(Link {
            state: sum(self.heap, &state, &added)?,
            last: block.to_vec(self.heap)?,
        })
    }

    // Runs the chain over `text`; `out` takes each x'.
    fn run(&self, start: Link, text: &[u8], out: &mut Vec<u8>) -> Result<Link, AllocError> {
        let n = self.vector.kind.block_len();
        let mut link = start;
        for block in text.chunks(n) {
            link = self.next(&link, block)?;
            let (upper, _lower) = cut(&link.state, n);
            out.extend_from_slice(upper)?;
        }
        Ok(link)
    }

    // The chain from its start through the data.
    fn after_data(&self) -> Result<Link, AllocError> {
        let nonce = self.vector.block(self.heap, &self.vector.bits.nonce)?;
        let key = self.vector.block(self.heap, &self.vector.bits.key)?;
        let start = Link {
            state: joined(self.heap, &nonce, &key)?,
            last: nonce,
        };
        let mut unused = Vec::new(self.heap);
        self.run(start, &self.vector.padded_ad(self.heap)?, &mut unused)
    }

    fn tag(&self, end: &Link) -> Result<Vec<u8>, AllocError> {
        let state = self.mixed(&end.state)?;
        let (_upper, lower) = cut(&state, self.vector.kind.block_len());
        let masked = sum(self.heap, lower, &end.last)?;
        let key = self.vector.block(self.heap, &self.vector.bits.key)?;
        sum(self.heap, &masked, &key)
    }

    // Ciphertext and tag.
    fn sealed(&self) -> Result<Vec<u8>, AllocError> {
        let text = self.vector.padded_message(self.heap)?;
        let mut sealed = Vec::new(self.heap);
        let end = self.run(self.after_data()?, &text, &mut sealed)?;
        sealed.extend_from_slice(&self.tag(&end)?)?;
        Ok(sealed)
    }
}

// Vector and case are given to three functions, which run once each: a struct for them would be no plainer.

// That the mixing of one implementation gives the published bytes; `how` says that it doesn't.
fn reproduce<S: Side>(
    heap: Global,
    side: &S,
    case: Case,
    vector: &Vector,
    how: &str,
) -> anyhow::Result<()> {
    let sealing = Sealing { heap, side, vector };
    if sealing.sealed()? == vector.sealed {
        Ok(())
    } else {
        Err(case.fails(how))
    }
}

// The bits as whole bytes, with zero bits in front.
fn whole_bytes(heap: Global, bits: &[u8]) -> Result<Vec<u8>, AllocError> {
    let len = bits.len().saturating_add(7) / 8;
    packed(heap, &extended(heap, bits, len.saturating_mul(8))?)
}

// What both seal the same inputs to in our own byte order, each as whole bytes.
fn sealed_in_our_order(sides: &Sides, case: Case, vector: &Vector) -> anyhow::Result<Vec<u8>> {
    let heap = sides.heap;
    let key = reversed(heap, &vector.block(heap, &vector.bits.key)?)?;
    let nonce = whole_bytes(heap, &vector.bits.nonce)?;
    let ad = whole_bytes(heap, &vector.bits.ad)?;
    let setting = Setting {
        kind: vector.kind,
        key: &key,
        nonce: &nonce,
        ad: &ad,
    };
    sides.round_trip(case, &setting, &whole_bytes(heap, &vector.bits.message)?)
}

// The same blocks with the bytes of each in reverse.
fn blocks_reversed(heap: Global, bytes: &[u8], kind: Kind) -> Result<Vec<u8>, AllocError> {
    let mut all = Vec::new(heap);
    for block in bytes.chunks(kind.block_len()) {
        all.extend_from_slice(&reversed(heap, block)?)?;
    }
    Ok(all)
}

// That our bytes are others than the published ones, in either order of a block's bytes.
fn differ(sides: &Sides, case: Case, vector: &Vector) -> anyhow::Result<()> {
    let ours = sealed_in_our_order(sides, case, vector)?;
    let turned = blocks_reversed(sides.heap, &ours, vector.kind)?;
    if ours == vector.sealed || turned == vector.sealed {
        return Err(case.fails("our byte order gives the published bytes"));
    }
    Ok(())
}

// One vector: both mixings give its bytes, and our order gives others.
fn compare(sides: &Sides, number: usize, line: &str) -> anyhow::Result<()> {
    let vector = Vector::of(sides.heap, line)?;
    let case = Case::of(vector.kind, "published vector of line", number);
    let how = "the library's mixing does not reproduce it";
    reproduce(sides.heap, &sides.library, case, &vector, how)?;
    let how = "the reference's mixing does not reproduce it";
    reproduce(sides.heap, &sides.reference, case, &vector, how)?;
    differ(sides, case, &vector)
}

// All the vectors of a file; answers how many.
pub(crate) fn published_vectors(sides: &Sides, text: &str) -> anyhow::Result<usize> {
    each_line(text, |number, line| compare(sides, number, line))
}
