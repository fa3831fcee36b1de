// Sealing.
ghost use Rattle.std.specs.Prelude.{◌≡◌, ◌+◌, ◌<◌, ◌≤◌, ◌++◌, length, IfOk, MatchResult};
ghost use Rattle.mixers.specs.Blocks.{over};
ghost use Rattle.mode.specs.Laws.{OpensAgain};
ghost use Rattle.mode.specs.Sealing.{cipher_text, cipher_tag, cipher_length, seal_answer, seal_leaves};

use crate::chain::Chain;
use crate::fault::Fault;
use crate::padding::Message;
use crate::setting::{Admitted, Setting};
use crate::way::Sealing;
use mixers::Mixer;

impl<const B: usize> Message<'_, B> {
    // The lengths of C and of C with T, or the refusal where a buffer of `room` bytes does not hold both.
    fn lengths(&self, room: usize) -> Result<(usize, usize), Fault>
        ensures { let n = cipher_length B (length self.now.bytes.now) in MatchResult result (λ lengths. (lengths ≡ (n, n + B)) × (n + B ≤ room)) (λ e. (room < n + B) × (e ≡ Fault.BufferTooShort)) }
    {
        let cipher = self.cipher_len();
        if room < cipher + B {
            return Err(Fault::BufferTooShort);
        }
        Ok((cipher, cipher + B))
    }

    // Writes C and T at the front of `out`.
    fn write_sealed<M: Mixer<B>>(&self, mixer: &M, out: &mut [u8])
        requires { cipher_length B (length self.now.bytes.now) + B ≤ length out.old }
        ensures { let s = self.now.under.setting in out.new ≡ over (cipher_text (M.mixing mixer.now) B s.key.now s.nonce.now s.ad.now self.now.bytes.now ++ cipher_tag (M.mixing mixer.now) B s.key.now s.nonce.now s.ad.now self.now.bytes.now) out.old }
    {
        let mut chain = Chain::begin(mixer, &self.under);
        let (cipher, rest) = out.split_at_mut(self.cipher_len());
        self.pad(cipher);
        chain.turn_all::<Sealing, M>(mixer, cipher);
        let tag = chain.tag(mixer, &self.under);
        rest[..B].copy_from_slice(&tag.bytes);
    }
}

// Seals `message`: writes ciphertext C and tag T at the front of `out`, and answers two lengths, of C and of C with T.
// A refusal writes nothing.
pub fn seal<const B: usize, M: Mixer<B>>(
    mixer: &M,
    setting: Setting,
    message: &[u8],
    out: &mut [u8],
) -> Result<(usize, usize), Fault>
    ensures answer { let s = setting.entry in result ≡ seal_answer B s.key.now s.nonce.now s.ad.now message.now out.old }
    ensures buffer { let s = setting.entry in out.new ≡ seal_leaves (M.mixing mixer.now) B s.key.now s.nonce.now s.ad.now message.now out.old }
    ensures again { let s = setting.entry in IfOk result (OpensAgain (M.mixing mixer.now) B s.key.now s.nonce.now s.ad.now message.now) }
{
    let message = Message::new(Admitted::new(mixer, setting)?, message)?;
    let lengths = message.lengths(out.len())?;
    message.write_sealed(mixer, out);
    Ok(lengths)
}
