// What opens and what does not: a worked example, and copies of it in which one thing is changed.
use crate::parts::{UNTOUCHED, all_are, cut};
use mixers::{Block, Exchange, Mixer, State};
use mode::{Fault, Setting, open, seal};
use std::process::Abort;
use std::test::Fail;

// The exchange under this key, with nonce, data and message empty, gives this ciphertext, and a tag of zeros.
const KEY: [u8; 16] = [0x11; 16];

const CIPHER: [u8; 16] = [
    0x11, 0x11, 0x11, 0x11, 0x11, 0x11, 0x11, 0x11, 0x11, 0x11, 0x11, 0x11, 0x10, 0x11, 0x11, 0x11,
];

const TAG: [u8; 16] = [0; 16];

// What the example is sealed under.
fn setting() -> Setting<'static> {
    Setting {
        key: &KEY,
        nonce: &[],
        ad: &[],
    }
}

// Opening answers that this is not authentic, and leaves zeros over the length of the ciphertext and nothing else.
fn refused(rt: &impl Abort, setting: Setting, cipher: &[u8], tag: &[u8]) {
    let mut text = [UNTOUCHED; 80];
    assert_eq!(rt;
        open(&Exchange, setting, cipher, tag, &mut text),
        Err(Fault::NotAuthentic)
    );
    let (written, rest) = cut(&text, cipher.len());
    assert!(rt; all_are(0, written));
    assert!(rt; all_are(UNTOUCHED, rest));
}

#[test]
fn the_exchange_swaps_the_blocks_of_a_state(rt: HostRuntime) {
    assert_eq!(rt; Exchange.block_len(), 16);
    assert_eq!(rt; Exchange.mark(), 3);
    let mut state = State {
        upper: Block::of(&[1, 2]),
        lower: Block::of(&[3; 20]),
    };
    Exchange.mix(&mut state);
    assert!(rt; state.upper.bytes == [3; 16]);
    assert!(rt; state.lower.bytes == [1, 2, 0, 0, 0, 0, 0, 0, 0, 0, 0, 0, 0, 0, 0, 0]);
}

#[test]
fn the_worked_example_runs(rt: HostRuntime) -> Result<(), Fail> {
    let mut out = [UNTOUCHED; 40];
    let lengths = seal(&Exchange, setting(), &[], &mut out)?;
    assert_eq!(rt; lengths, (16, 32));
    assert!(rt; &out[..16] == &CIPHER[..]);
    assert!(rt; all_are(0, &out[16..32]));
    assert!(rt; all_are(UNTOUCHED, &out[32..]));
    let mut text = [UNTOUCHED; 20];
    assert_eq!(rt; open(&Exchange, setting(), &CIPHER, &TAG, &mut text)?, 0);
    assert!(rt; all_are(0, &text[..16]));
    assert!(rt; all_are(UNTOUCHED, &text[16..]));
    Ok(())
}

#[test]
fn every_flipped_bit_of_the_tag_is_refused(rt: HostRuntime) {
    for bit in 0..128 {
        let mut tag = TAG;
        tag[bit / 8] ^= 1 << (bit % 8);
        refused(&rt, setting(), &CIPHER, &tag);
    }
}

// Blocks of 0x11 have the same tag as the worked example and are the padding of no message.
#[test]
fn a_right_tag_over_wrong_padding_is_refused(rt: HostRuntime) {
    refused(&rt, setting(), &KEY, &TAG);
}

#[test]
fn another_key_nonce_or_data_is_refused(rt: HostRuntime) {
    let key = &[0x12; 16];
    refused(&rt, Setting { key, ..setting() }, &CIPHER, &TAG);
    let nonce = &[0];
    refused(&rt, Setting { nonce, ..setting() }, &CIPHER, &TAG);
    let ad = &[0];
    refused(&rt, Setting { ad, ..setting() }, &CIPHER, &TAG);
}
