// Messages around the edges of blocks: how long the ciphertext is, that it opens to the message, and what the buffers
// hold behind.
use crate::parts::{UNTOUCHED, all_are, cut, front};
use crate::wide_exchange::WideExchange;
use mixers::{Exchange, Mixer};
use mode::{Setting, open, seal};
use std::alloc::{AllocError, Global};
use std::process::Abort;
use std::test::Fail;

// The lengths of a message and of its ciphertext, at blocks of 16 bytes: 3 bytes are one block, 4 are two.
const AT_SIXTEEN: [(usize, usize); 10] = [
    (0, 16),
    (3, 16),
    (4, 32),
    (19, 32),
    (20, 48),
    (35, 48),
    (36, 64),
    (51, 64),
    (833, 848),
    (65536, 65552),
];

// At blocks of 32 bytes: 19 bytes are one block, 20 are two. Written out, since a test's values are not computed.
const AT_THIRTY_TWO: [(usize, usize); 8] = [
    (0, 32),
    (3, 32),
    (19, 32),
    (20, 64),
    (51, 64),
    (52, 96),
    (833, 864),
    (65536, 65568),
];

// Where the cases seal and open.
#[derive(Drop)]
struct Buffers {
    out: Vec<u8>,
    text: Vec<u8>,
}

impl Buffers {
    fn new(heap: Global, len: usize) -> Result<Buffers, AllocError> {
        Ok(Buffers {
            out: vec![in heap; 0u8; len]?,
            text: vec![in heap; 0u8; len]?,
        })
    }

    // Seals and opens one message; answers the length of its ciphertext.
    fn round_trip<const B: usize, M: Mixer<B>>(
        &mut self,
        rt: &impl Abort,
        mixer: &M,
        message: &[u8],
    ) -> Result<usize, Fail> {
        self.out.fill(UNTOUCHED);
        self.text.fill(UNTOUCHED);
        let setting = Setting {
            key: front(&[0x4b; 32], mixer.block_len()),
            nonce: b"number",
            ad: b"header",
        };
        let (len, all) = seal(mixer, setting, message, &mut self.out)?;
        let (sealed, behind) = cut(&self.out, all);
        let (cipher, tag) = cut(sealed, len);
        assert_eq!(rt; all.saturating_sub(len), mixer.block_len());
        assert!(rt; all_are(UNTOUCHED, behind));
        assert_eq!(rt;
            open(mixer, setting, cipher, tag, &mut self.text)?,
            message.len()
        );
        let (padded, behind) = cut(&self.text, len);
        let (opened, zeros) = cut(padded, message.len());
        assert!(rt; opened == message);
        assert!(rt; all_are(0, zeros));
        assert!(rt; all_are(UNTOUCHED, behind));
        Ok(len)
    }

    // The same for the fronts of `message` that a table names, with the lengths that it has.
    fn each_of<const B: usize, M: Mixer<B>>(
        &mut self,
        rt: &impl Abort,
        mixer: &M,
        message: &[u8],
        table: &[(usize, usize)],
    ) -> Result<(), Fail> {
        for (len, cipher) in table {
            let got = self.round_trip(rt, mixer, front(message, *len))?;
            assert_eq!(rt; got, *cipher);
        }
        Ok(())
    }

    // The same for each front of `message`.
    fn each_front<const B: usize, M: Mixer<B>>(
        &mut self,
        rt: &impl Abort,
        mixer: &M,
        message: &[u8],
    ) -> Result<(), Fail> {
        for len in 0..message.len() {
            self.round_trip(rt, mixer, front(message, len))?;
        }
        Ok(())
    }
}

#[test]
fn ciphertexts_have_the_length_of_the_table(rt: HostRuntime) -> Result<(), Fail> {
    let message = vec![in rt.alloc(); 0x20u8; 65536]?;
    let mut buffers = Buffers::new(rt.alloc(), 65700)?;
    buffers.each_of(&rt, &Exchange, &message, &AT_SIXTEEN)?;
    buffers.each_of(&rt, &WideExchange, &message, &AT_THIRTY_TWO)
}

#[test]
fn every_short_message_opens_again(rt: HostRuntime) -> Result<(), Fail> {
    let message = [0xa5; 101];
    let mut buffers = Buffers::new(rt.alloc(), 200)?;
    buffers.each_front(&rt, &Exchange, &message)?;
    buffers.each_front(&rt, &WideExchange, &message)
}
