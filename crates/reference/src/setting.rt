// What a message is sealed and opened under, and which lengths are refused.
use crate::kind::Kind;
use crate::padding::MESSAGE_MAX;
use crate::refusal::Refusal;

const DATA_MAX: usize = 4096;

#[derive(Clone, Copy)]
pub struct Setting<'a> {
    pub kind: Kind,
    pub key: &'a [u8],
    pub nonce: &'a [u8],
    pub ad: &'a [u8],
}

impl Setting<'_> {
    pub(crate) fn judge(&self) -> Result<(), Refusal> {
        let n = self.kind.block_len();
        if self.key.len() != n {
            return Err(Refusal::KeyLength);
        }
        if self.nonce.len() > n {
            return Err(Refusal::NonceTooLong);
        }
        if self.ad.len() > DATA_MAX {
            return Err(Refusal::DataTooLong);
        }
        Ok(())
    }

    pub(crate) fn judge_cipher(&self, cipher: &[u8], tag: &[u8]) -> Result<(), Refusal> {
        let n = self.kind.block_len();
        let good = tag.len() == n
            && !cipher.is_empty()
            && cipher.len().is_multiple_of(n)
            && cipher.len() <= MESSAGE_MAX + n;
        if good {
            Ok(())
        } else {
            Err(Refusal::CipherLength)
        }
    }
}
