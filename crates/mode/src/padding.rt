// Bringing data and message to whole blocks, and reading a message back.
ghost use Rattle.std.specs.Prelude.{◌≡◌, ◌+◌, ◌-◌, ◌*◌, ◌<◌, ◌≤◌, ◌∷◌, ◌++◌, length, drop, replicate, ◌≢◌, slice_index, MatchResult, IfOk};
ghost use Rattle.mode.specs.Limits.{message_most};
ghost use Rattle.mode.specs.Opening.{message_answer};
ghost use Rattle.mode.specs.Padding.{trailer_number as number_of, trailer as trailer_of, pad_message, unpadded};
ghost use Rattle.mode.specs.Sealing.{cipher_length};

use crate::bytes::{copy, same};
use crate::fault::Fault;
use crate::limits::{MESSAGE_MOST, TRAILER};
use crate::setting::Admitted;
use mixers::Block;

// A message that can be sealed under a setting.
#[derive(Clone, Copy)]
pub(crate) struct Message<'a, const B: usize> {
    pub(crate) under: Admitted<'a, B>,
    pub(crate) bytes: &'a [u8],
    ghost short: { length bytes.now ≤ message_most },
}

impl<'a, const B: usize> Message<'a, B> {
    // Refused where it is too long.
    pub(crate) fn new(under: Admitted<'a, B>, bytes: &'a [u8]) -> Result<Self, Fault>
        ensures { MatchResult result (λ message. (message.under ≡ under.entry) × (message.bytes.now ≡ bytes.now)) (λ e. (message_most < length bytes.now) × (e ≡ Fault.MessageTooLong)) }
    {
        if bytes.len() > MESSAGE_MOST {
            return Err(Fault::MessageTooLong);
        }
        Ok(Message { under, bytes })
    }

    // The length of its ciphertext.
    pub(crate) fn cipher_len(&self) -> usize
        ensures { result ≡ cipher_length B (length self.now.bytes.now) }
    {
        (self.bytes.len() + TRAILER).next_multiple_of(B)
    }

    // The number in its trailer.
    fn trailer_number(&self) -> u128
        ensures { let s = self.now.under.setting in result ≡ number_of B (8 * length s.nonce.now) (8 * length s.ad.now) (8 * length self.now.bytes.now) }
    {
        let nonce = self.under.setting.nonce.len() as u128 * 8;
        let ad = self.under.setting.ad.len() as u128 * 8;
        let message = self.bytes.len() as u128 * 8;
        let unit = if B == 16 { 256 } else { 512 };
        nonce + unit * (ad + (1 << 24) * (message + (1 << 64)))
    }

    // Its trailer: the 13 low bytes of that number.
    fn trailer(&self) -> [u8; TRAILER]
        ensures { let s = self.now.under.setting in result ≡ trailer_of B (8 * length s.nonce.now) (8 * length s.ad.now) (8 * length self.now.bytes.now) }
    {
        self.trailer_number().to_le_bytes()[..TRAILER]
            .try_into()
            .unwrap()
    }

    // Writes it, padded, over the whole of `out`.
    pub(crate) fn pad(&self, out: &mut [u8])
        requires { length out.old ≡ cipher_length B (length self.now.bytes.now) }
        ensures { let s = self.now.under.setting in out.new ≡ pad_message B (8 * length s.nonce.now) (8 * length s.ad.now) self.now.bytes.now }
    {
        let (message, rest) = out.split_at_mut(self.bytes.len());
        let (trailer, zeros) = rest.split_at_mut(TRAILER);
        copy(message, self.bytes);
        trailer.copy_from_slice(&self.trailer());
        zeros.fill(0);
    }
}

// The last block of padded data: `rest`, the byte 1, and zeros.
pub(crate) fn pad_rest<const B: usize>(rest: &[u8]) -> Block<B>
    requires { length rest.now < B }
    ensures { result.bytes ≡ rest.now ++ (1 ∷ replicate (B - (length rest.now + 1)) 0) }
{
    let mut block = Block::of(rest);
    block.bytes[rest.len()] = 1;
    block
}

// The place behind the last byte that is not zero, or 0 where all are.
fn reach(text: &[u8]) -> usize
    ensures within { result ≤ length text.now }
    ensures zeros { drop result text.now ≡ replicate (length text.now - result) 0 }
    ensures last { 0 < result → slice_index text.now (result - 1) ≢ 0 }
{
    text.iter()
        .rposition(|byte| *byte != 0)
        .map_or(0, |last| last + 1)
}

impl<const B: usize> Admitted<'_, B> {
    // The length of the message whose padding is `text`. A trailer's last byte is not zero, so only one length is possible.
    pub(crate) fn message_len(&self, text: &[u8]) -> Result<usize, Fault>
        ensures answer { let s = self.now.setting in result ≡ message_answer (unpadded B (8 * length s.nonce.now) (8 * length s.ad.now) text.now) }
        ensures within { IfOk result (λ len. len ≤ length text.now) }
    {
        let end = reach(text);
        if end < TRAILER {
            return Err(Fault::NotAuthentic);
        }
        let len = end - TRAILER;
        let Ok(message) = Message::new(*self, &text[..len]) else {
            return Err(Fault::NotAuthentic);
        };
        if text.len() == message.cipher_len() && same(&message.trailer(), &text[len..end]) {
            Ok(len)
        } else {
            Err(Fault::NotAuthentic)
        }
    }
}
