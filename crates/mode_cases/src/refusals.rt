// Every refusal, the order between them, and what each leaves in the buffer.
use crate::parts::{UNTOUCHED, all_are, cut, front};
use crate::wide_exchange::WideExchange;
use mixers::{Exchange, Mixer};
use mode::{Fault, Setting, open, seal};
use std::process::Abort;
use std::test::Fail;

// The lengths of key, nonce, data, message and output buffer that sealing is called with, and what it answers. In each
// row all that is judged later is wrong too. Each width has its rows, written out: a test's values are not computed.
const SEALINGS: [([usize; 5], Result<(), Fault>); 11] = [
    ([0, 17, 4097, 65537, 0], Err(Fault::KeyLength)),
    ([15, 17, 4097, 65537, 0], Err(Fault::KeyLength)),
    ([17, 17, 4097, 65537, 0], Err(Fault::KeyLength)),
    ([16, 17, 4097, 65537, 0], Err(Fault::NonceTooLong)),
    ([16, 16, 4097, 65537, 0], Err(Fault::DataTooLong)),
    ([16, 16, 4096, 65537, 0], Err(Fault::MessageTooLong)),
    ([16, 16, 4096, 65536, 65567], Err(Fault::BufferTooShort)),
    ([16, 16, 4096, 65536, 65568], Ok(())),
    ([16, 0, 0, 3, 31], Err(Fault::BufferTooShort)),
    ([16, 0, 0, 3, 32], Ok(())),
    ([16, 0, 0, 4, 47], Err(Fault::BufferTooShort)),
];

const WIDE_SEALINGS: [([usize; 5], Result<(), Fault>); 7] = [
    ([16, 33, 4097, 65537, 0], Err(Fault::KeyLength)),
    ([32, 33, 4097, 65537, 0], Err(Fault::NonceTooLong)),
    ([32, 32, 4097, 65537, 0], Err(Fault::DataTooLong)),
    ([32, 32, 4096, 65537, 0], Err(Fault::MessageTooLong)),
    ([32, 32, 4096, 65536, 65599], Err(Fault::BufferTooShort)),
    ([32, 32, 4096, 65536, 65600], Ok(())),
    ([32, 0, 0, 20, 95], Err(Fault::BufferTooShort)),
];

// The lengths of key, nonce, data, ciphertext, tag and text buffer that opening is called with, and its
// refusal. In each row all that is judged later is wrong too; what passes the lengths is not authentic.
const OPENINGS: [([usize; 6], Fault); 13] = [
    ([15, 17, 4097, 17, 15, 0], Fault::KeyLength),
    ([16, 17, 4097, 17, 15, 0], Fault::NonceTooLong),
    ([16, 16, 4097, 17, 15, 0], Fault::DataTooLong),
    ([16, 16, 4096, 16, 15, 0], Fault::CipherLength),
    ([16, 16, 4096, 16, 17, 0], Fault::CipherLength),
    ([16, 16, 4096, 0, 16, 0], Fault::CipherLength),
    ([16, 16, 4096, 15, 16, 0], Fault::CipherLength),
    ([16, 16, 4096, 17, 16, 0], Fault::CipherLength),
    ([16, 16, 4096, 65568, 16, 0], Fault::CipherLength),
    ([16, 16, 4096, 65552, 16, 65551], Fault::BufferTooShort),
    ([16, 16, 4096, 65552, 16, 65552], Fault::NotAuthentic),
    ([16, 0, 0, 16, 16, 15], Fault::BufferTooShort),
    ([16, 0, 0, 16, 16, 20], Fault::NotAuthentic),
];

const WIDE_OPENINGS: [([usize; 6], Fault); 7] = [
    ([16, 33, 4097, 16, 16, 0], Fault::KeyLength),
    ([32, 33, 4097, 16, 16, 0], Fault::NonceTooLong),
    ([32, 32, 4097, 16, 16, 0], Fault::DataTooLong),
    ([32, 32, 4096, 48, 32, 0], Fault::CipherLength),
    ([32, 32, 4096, 65600, 32, 0], Fault::CipherLength),
    ([32, 32, 4096, 65568, 32, 65567], Fault::BufferTooShort),
    ([32, 32, 4096, 65568, 32, 65568], Fault::NotAuthentic),
];

// Key, nonce and data of these lengths.
fn setting(bytes: &[u8], key: usize, nonce: usize, ad: usize) -> Setting<'_> {
    Setting {
        key: front(bytes, key),
        nonce: front(bytes, nonce),
        ad: front(bytes, ad),
    }
}

// Seals by each row.
fn seal_rows<const B: usize, M: Mixer<B>>(
    rt: &impl Abort,
    mixer: &M,
    rows: &[([usize; 5], Result<(), Fault>)],
    bytes: &[u8],
    buffer: &mut [u8],
) {
    for ([key, nonce, ad, message, room], expected) in rows {
        buffer.fill(UNTOUCHED);
        let room = buffer.len().min(*room);
        let setting = setting(bytes, *key, *nonce, *ad);
        let answer = seal(mixer, setting, front(bytes, *message), &mut buffer[..room]);
        assert_eq!(rt; answer.map(|_lengths| ()), *expected);
        assert!(rt; expected.is_ok() || all_are(UNTOUCHED, &buffer[..room]));
    }
}

// Opens by each row.
fn open_rows<const B: usize, M: Mixer<B>>(
    rt: &impl Abort,
    mixer: &M,
    rows: &[([usize; 6], Fault)],
    bytes: &[u8],
    buffer: &mut [u8],
) {
    for ([key, nonce, ad, cipher, tag, room], fault) in rows {
        buffer.fill(UNTOUCHED);
        let room = buffer.len().min(*room);
        let setting = setting(bytes, *key, *nonce, *ad);
        let (cipher, tag) = (front(bytes, *cipher), front(bytes, *tag));
        let answer = open(mixer, setting, cipher, tag, &mut buffer[..room]);
        assert_eq!(rt; answer, Err(*fault));
        let written = match fault {
            Fault::NotAuthentic => cipher.len(),
            _ => 0,
        };
        let (zeros, rest) = cut(&buffer[..room], written);
        assert!(rt; all_are(0, zeros));
        assert!(rt; all_are(UNTOUCHED, rest));
    }
}

// The refusals, with the codes of docs/REFUSALS.md: numbers, since that is what the test is about.
const CODES: [(Fault, u8); 7] = [
    (Fault::KeyLength, 1),
    (Fault::NonceTooLong, 2),
    (Fault::DataTooLong, 3),
    (Fault::MessageTooLong, 4),
    (Fault::CipherLength, 5),
    (Fault::BufferTooShort, 6),
    (Fault::NotAuthentic, 7),
];

#[test]
fn each_refusal_has_its_code(rt: HostRuntime) {
    for (fault, code) in &CODES {
        assert_eq!(rt; fault.code(), *code);
    }
}

#[test]
fn sealing_refuses_in_order(rt: HostRuntime) -> Result<(), Fail> {
    let bytes = vec![in rt.alloc(); 0x37u8; 65700]?;
    let mut buffer = vec![in rt.alloc(); 0u8; 65700]?;
    seal_rows(&rt, &Exchange, &SEALINGS, &bytes, &mut buffer);
    seal_rows(&rt, &WideExchange, &WIDE_SEALINGS, &bytes, &mut buffer);
    Ok(())
}

#[test]
fn opening_refuses_in_order(rt: HostRuntime) -> Result<(), Fail> {
    let bytes = vec![in rt.alloc(); 0x37u8; 65700]?;
    let mut buffer = vec![in rt.alloc(); 0u8; 65700]?;
    open_rows(&rt, &Exchange, &OPENINGS, &bytes, &mut buffer);
    open_rows(&rt, &WideExchange, &WIDE_OPENINGS, &bytes, &mut buffer);
    Ok(())
}
