// Lengths of message, nonce and data at and around the edges, and lengths that are refused.
use crate::answer::Answer;
use crate::bytes::sample;
use crate::case::Case;
use crate::inputs::{Inputs, Shape};
use crate::sides::Pair;
use crate::tally::Lengths;
use mode::Fault;

// That both gave this refusal.
fn expect(case: Case, answer: Answer, fault: Fault) -> anyhow::Result<()> {
    if answer != Err(fault) {
        return Err(case.fails("both answer, but not by the refusal due"));
    }
    Ok(())
}

impl Pair<'_> {
    // Seals and opens inputs of the usual lengths but one, which is each of these in turn; answers how many.
    fn agree_on<F: Fn(Shape, usize) -> Shape>(
        &self,
        what: &'static str,
        lengths: &[usize],
        with_length: F,
    ) -> anyhow::Result<usize>
        requires { F.IsAlwaysCallable with_length }
    {
        for n in lengths {
            let inputs = Inputs::of(self.sides.heap, with_length(Shape::usual(self.kind), *n))?;
            let case = self.case(what, *n);
            let _sealed = self
                .sides
                .round_trip(case, &inputs.setting(self.kind), &inputs.message)?;
        }
        Ok(lengths.len())
    }

    // Messages of 0 to 100 bytes, and around the longest.
    fn messages(&self) -> anyhow::Result<usize> {
        let lengths: Vec<usize> = (0..101).chain([65535, 65536]).collect(self.sides.heap)?;
        self.agree_on("message length", &lengths, Shape::with_message)
    }

    fn nonces(&self) -> anyhow::Result<usize> {
        let lengths: Vec<usize> = (0..=self.kind.block_len()).collect(self.sides.heap)?;
        self.agree_on("nonce length", &lengths, Shape::with_nonce)
    }

    fn data(&self) -> anyhow::Result<usize> {
        let b = self.kind.block_len();
        let lengths = [0, 1, b - 1, b, b + 1, 4096];
        self.agree_on("data length", &lengths, Shape::with_ad)
    }

    // The lengths of key, nonce, data and message that sealing refuses, and the refusal.
    fn refused_sealings(&self) -> anyhow::Result<usize> {
        let b = self.kind.block_len();
        let more = b + 1;
        let less = b - 1;
        let rows = [
            ([0, 8, 10, 51], Fault::KeyLength),
            ([less, 8, 10, 51], Fault::KeyLength),
            ([more, 8, 10, 51], Fault::KeyLength),
            ([b, more, 10, 51], Fault::NonceTooLong),
            ([b, 8, 4097, 51], Fault::DataTooLong),
            ([b, 8, 10, 65537], Fault::MessageTooLong),
        ];
        for (i, (lengths, fault)) in rows.iter().enumerate() {
            let case = self.case("refused sealing", i);
            let inputs = Inputs::of(self.sides.heap, Shape::from(*lengths))?;
            let answer = self
                .sides
                .seal(case, &inputs.setting(self.kind), &inputs.message)?;
            expect(case, answer, *fault)?;
        }
        Ok(rows.len())
    }

    // The lengths of key, nonce, data and ciphertext, and of the tag, that opening refuses, and the refusal. In the
    // last row they are good, and what is opened is not authentic.
    fn refused_openings(&self) -> anyhow::Result<usize> {
        let b = self.kind.block_len();
        let more = b + 1;
        let less = b - 1;
        let most = 65536 + b;
        let rows = [
            ([less, 8, 10, b], b, Fault::KeyLength),
            ([more, 8, 10, b], b, Fault::KeyLength),
            ([b, more, 10, b], b, Fault::NonceTooLong),
            ([b, 8, 4097, b], b, Fault::DataTooLong),
            ([b, 8, 10, b], less, Fault::CipherLength),
            ([b, 8, 10, b], more, Fault::CipherLength),
            ([b, 8, 10, 0], b, Fault::CipherLength),
            ([b, 8, 10, less], b, Fault::CipherLength),
            ([b, 8, 10, more], b, Fault::CipherLength),
            ([b, 8, 10, most + b], b, Fault::CipherLength),
            ([b, 8, 10, most], b, Fault::NotAuthentic),
        ];
        for (i, (lengths, tag, fault)) in rows.iter().enumerate() {
            let case = self.case("refused opening", i);
            let inputs = Inputs::of(self.sides.heap, Shape::from(*lengths))?;
            let tag = sample(self.sides.heap, 5, *tag)?;
            let answer = self
                .sides
                .open(case, &inputs.setting(self.kind), &inputs.message, &tag)?;
            expect(case, answer, *fault)?;
        }
        Ok(rows.len())
    }

    // All of these for one mixer.
    pub(crate) fn lengths(&self) -> anyhow::Result<Lengths> {
        Ok(Lengths {
            kind: self.kind,
            messages: self.messages()?,
            nonces: self.nonces()?,
            ads: self.data()?,
            sealings: self.refused_sealings()?,
            openings: self.refused_openings()?,
        })
    }
}
