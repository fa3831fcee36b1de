// One text, sealed and opened under any mixer.
ghost use Rattle.std.specs.Prelude.{◌≡◌, [], ◌∷◌, length, drop, ◌<◌, ◌≤◌, IfOk};
ghost use Rattle.mode.specs.Sealing.{seal_lengths};

use mixers::Mixer;
use mode::{Fault, Setting, open, seal};

// Grade 512, two zones over 2,400 mm.
pub(crate) const TEXT: [u8; 51] = *b"   512   2  2400\n   1   650   -25\n   2   655     0\n";

// The bytes of its ciphertext, and the most of ciphertext and tag.
pub(crate) const CIPHER: usize = 64;

pub(crate) const SEALED_MOST: usize = 96;

// Kind 1, the mixer's mark, scanner 1, number 1, low byte first.
fn header(mark: u8) -> [u8; 10]
    ensures { result ≡ 1 ∷ mark ∷ 1 ∷ 0 ∷ 0 ∷ 0 ∷ 1 ∷ 0 ∷ 0 ∷ 0 ∷ [] }
{
    [1, mark, 1, 0, 0, 0, 1, 0, 0, 0]
}

// The setting with that header; the nonce is its last eight bytes.
fn setting<'a>(key: &'a [u8], header: &'a [u8; 10]) -> Setting<'a>
    ensures key { result.key.now ≡ key.now }
    ensures nonce { result.nonce.now ≡ drop 2 header.now }
    ensures ad { result.ad.now ≡ header.now }
{
    Setting {
        key,
        nonce: &header[2..],
        ad: header,
    }
}

// Seals TEXT into `out`; answers the lengths of the ciphertext and of it with the tag.
pub(crate) fn seal_text<const B: usize, M: Mixer<B>>(
    mixer: &M,
    key: &[u8],
    out: &mut [u8; SEALED_MOST],
) -> Result<(usize, usize), Fault>
    ensures lengths { result ≡ seal_lengths B (length key.now) 8 10 51 96 }
    ensures within { IfOk result (λ lengths. (lengths.0 < lengths.1) × (lengths.1 ≤ 96)) }
{
    let header = header(mixer.mark());
    seal(mixer, setting(key, &header), &TEXT, out)
}

// Opens what was sealed so into `text`; answers the length of the message.
pub(crate) fn open_text<const B: usize, M: Mixer<B>>(
    mixer: &M,
    key: &[u8],
    cipher: &[u8],
    tag: &[u8],
    text: &mut [u8; CIPHER],
) -> Result<usize, Fault> {
    let header = header(mixer.mark());
    open(mixer, setting(key, &header), cipher, tag, text)
}
