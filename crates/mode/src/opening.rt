// Opening.
ghost use Rattle.std.specs.Prelude.{◌≡◌, ◌*◌, ◌≤◌, length, IfOk};
ghost use Rattle.mode.specs.Laws.{OpensSealed};
ghost use Rattle.mode.specs.Opening.{opened_blocks, opened_tag, judged, opens, message_answer, message_text, cipher_check, open_answer, open_leaves};

use crate::bytes::{copy, same};
use crate::chain::Chain;
use crate::fault::Fault;
use crate::guard::WipeGuard;
use crate::limits::MESSAGE_MOST;
use crate::setting::{Admitted, Setting};
use crate::way::Opening;
use mixers::{Block, Mixer};

impl<const B: usize> Admitted<'_, B> {
    // The first refusal from the lengths of ciphertext, tag and text buffer, if any. Ciphertext and tag stay two arguments:
    // callers have them apart, and a struct of both would be made for one call.
    fn check_lengths(&self, cipher: usize, tag: usize, room: usize) -> Result<(), Fault>
        ensures { result ≡ cipher_check B cipher tag room }
    {
        if tag != B || cipher == 0 || !cipher.is_multiple_of(B) || cipher > MESSAGE_MOST + B {
            return Err(Fault::CipherLength);
        }
        if room < cipher {
            return Err(Fault::BufferTooShort);
        }
        Ok(())
    }

    // Writes the blocks under C into `text`, and answers the tag that C should have.
    fn write_opened<M: Mixer<B>>(&self, mixer: &M, cipher: &[u8], text: &mut [u8]) -> Block<B>
        requires { length text.old ≡ length cipher.now }
        ensures tag { let s = self.now.setting in result.bytes ≡ opened_tag (M.mixing mixer.now) B s.key.now s.nonce.now s.ad.now cipher.now }
        ensures text { let s = self.now.setting in text.new ≡ opened_blocks (M.mixing mixer.now) B s.key.now s.nonce.now s.ad.now cipher.now }
    {
        let mut chain = Chain::begin(mixer, self);
        copy(text, cipher);
        chain.turn_all::<Opening, M>(mixer, text);
        chain.tag(mixer, self)
    }

    // The length of the message in the opened blocks `text`, if the tag is right and they are its padding. The tag comes
    // first: the padding of a text that is not authentic is never read.
    fn judge(&self, expected: &Block<B>, tag: &[u8], text: &[u8]) -> Result<usize, Fault>
        requires { length tag.now ≡ B }
        ensures answer { let s = self.now.setting in result ≡ message_answer (judged B (8 * length s.nonce.now) (8 * length s.ad.now) expected.now.bytes tag.now text.now) }
        ensures within { IfOk result (λ len. len ≤ length text.now) }
    {
        if same(&expected.bytes, tag) {
            self.message_len(text)
        } else {
            Err(Fault::NotAuthentic)
        }
    }

    // Opens C and T into `text`, which is as long as C. A guard stands over it, since the text is not yet known to be
    // authentic.
    fn open_guarded<M: Mixer<B>>(
        &self,
        mixer: &M,
        cipher: &[u8],
        tag: &[u8],
        text: &mut [u8],
    ) -> Result<usize, Fault>
        requires text { length text.old ≡ length cipher.now }
        requires tag { length tag.now ≡ B }
        ensures answer { let s = self.now.setting in result ≡ message_answer (opens (M.mixing mixer.now) B s.key.now s.nonce.now s.ad.now cipher.now tag.now) }
        ensures text { let s = self.now.setting in text.new ≡ message_text (length cipher.now) (opens (M.mixing mixer.now) B s.key.now s.nonce.now s.ad.now cipher.now tag.now) }
    {
        let guard = WipeGuard { text };
        let expected = self.write_opened(mixer, cipher, guard.text);
        let len = self.judge(&expected, tag, guard.text())?;
        guard.text[len..].fill(0);
        guard.release();
        Ok(len)
    }
}

// Opens ciphertext C and tag T: writes the message at the front of `text` and zeros after it up to the length of C,
// and answers the message's length. Where tag or padding is wrong, zeros stand over the length of C; any other refusal
// writes nothing.
pub fn open<const B: usize, M: Mixer<B>>(
    mixer: &M,
    setting: Setting,
    cipher: &[u8],
    tag: &[u8],
    text: &mut [u8],
) -> Result<usize, Fault>
    ensures answer { let s = setting.entry in result ≡ open_answer (M.mixing mixer.now) B s.key.now s.nonce.now s.ad.now cipher.now tag.now text.old }
    ensures buffer { let s = setting.entry in text.new ≡ open_leaves (M.mixing mixer.now) B s.key.now s.nonce.now s.ad.now cipher.now tag.now text.old }
    ensures exactly { let s = setting.entry in OpensSealed (M.mixing mixer.now) B s.key.now s.nonce.now s.ad.now cipher.now tag.now text.old result text.new }
{
    let under = Admitted::new(mixer, setting)?;
    under.check_lengths(cipher.len(), tag.len(), text.len())?;
    under.open_guarded(mixer, cipher, tag, &mut text[..cipher.len()])
}
