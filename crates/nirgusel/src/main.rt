// Seals the text of a grade sheet under each of the three mixers, opens it again, and refuses a copy with a damaged tag.
#![tactic(auto)]

mod bench;

use anyhow::anyhow;
use bench::{CIPHER, SEALED_MOST, TEXT, open_text, seal_text};
use mixers::{Exchange, Mixer, Narrow, Wide};

// Keys of the program's own run. They stand here for all to read.
const SHORT_KEY: [u8; 16] = *b"factory bench 16";

const LONG_KEY: [u8; 32] = *b"factory bench, 32 bytes of a key";

fn main(rt: HostRuntime) -> anyhow::Result<()> {
    run(&rt)
}

// Prints each thing that it completed.
fn run(rt: &impl Print) -> anyhow::Result<()> {
    println!(rt; "Nirgusel: grade sheets, sealed at the office and opened at the scanner")?;
    let odd = examples::worked_examples().sealed[12];
    println!(rt; "worked example: byte 12 is {odd:#04x}")?;
    under(rt, "exchange", &Exchange, &SHORT_KEY)?;
    under(rt, "narrow", &Narrow, &SHORT_KEY)?;
    under(rt, "wide", &Wide, &LONG_KEY)?;
    println!(rt; "completed: 3 sealed, 3 opened, 3 refused")?;
    Ok(())
}

// One text under one mixer: sealed, opened, and refused from a copy with a damaged tag.
fn under<const B: usize, M: Mixer<B>>(
    rt: &impl Print,
    name: &str,
    mixer: &M,
    key: &[u8],
) -> anyhow::Result<()> {
    let mut sealed = [0; SEALED_MOST];
    let Ok((len, all)) = seal_text(mixer, key, &mut sealed) else {
        return Err(anyhow!("sealing was refused"));
    };
    println!(rt;
        "{name}: sealed {} bytes, ciphertext {len}, with the tag {all}: {:02x} {:02x} {:02x} {:02x} ..",
        TEXT.len(),
        sealed[0],
        sealed[1],
        sealed[2],
        sealed[3]
    )?;
    let mut text = [0xff; CIPHER];
    let (cipher, tag) = sealed[..all].split_at(len);
    match open_text(mixer, key, cipher, tag, &mut text) {
        Ok(opened) if opened == TEXT.len() && text.starts_with(&TEXT) => {
            println!(rt; "{name}: opened the same text")?;
        }
        _ => return Err(anyhow!("the sealed text did not open")),
    }

    sealed[len] ^= 1;
    text = [0xff; CIPHER];
    let (cipher, tag) = sealed[..all].split_at(len);
    match open_text(mixer, key, cipher, tag, &mut text) {
        Err(fault) if text == [0; CIPHER] => {
            let code = fault.code();
            println!(rt;
                "{name}: refused a copy with a damaged tag, code {code}, {CIPHER} bytes left zero"
            )?;
            Ok(())
        }
        _ => Err(anyhow!("a damaged copy was not refused")),
    }
}
