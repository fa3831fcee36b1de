// What a message is sealed under, besides the mixer.
ghost use Rattle.std.specs.Prelude.{◌≡◌, ◌<◌, ◌≤◌, length, MatchResult};
ghost use Rattle.mode.specs.Faults.{admission};
ghost use Rattle.mode.specs.Limits.{data_most};

use crate::fault::Fault;
use crate::limits::DATA_MOST;
use mixers::Mixer;

// Key, nonce and associated data. Clauses name the three, since definitions take byte strings K, N and A, as the mode is
// written everywhere: a record of lists would be a second struct to believe. It is not printed and not compared, since it
// holds the key.
#[derive(Clone, Copy)]
pub struct Setting<'a> {
    pub key: &'a [u8],
    pub nonce: &'a [u8],
    // the associated data
    pub ad: &'a [u8],
}

// A setting that neither call refuses under a mixer with blocks of `B` bytes.
#[derive(Clone, Copy)]
pub(crate) struct Admitted<'a, const B: usize> {
    pub(crate) setting: Setting<'a>,
    ghost some: { 0 < B },
    ghost few: { B ≤ 32 },
    ghost key: { length setting.key.now ≡ B },
    ghost nonce: { length setting.nonce.now ≤ B },
    ghost ad: { length setting.ad.now ≤ data_most },
}

impl<'a, const B: usize> Admitted<'a, B> {
    // Refused where key, nonce or data have a length that is not admitted.
    pub(crate) fn new<M: Mixer<B>>(mixer: &M, setting: Setting<'a>) -> Result<Self, Fault>
        ensures { let s = setting.entry in MatchResult result (λ admitted. admitted.setting ≡ s) (λ e. admission B (length s.key.now) (length s.nonce.now) (length s.ad.now) ≡ Err e) }
    {
        let block = mixer.block_len();
        if setting.key.len() != block {
            return Err(Fault::KeyLength);
        }
        if setting.nonce.len() > block {
            return Err(Fault::NonceTooLong);
        }
        if setting.ad.len() > DATA_MOST {
            return Err(Fault::DataTooLong);
        }
        Ok(Admitted { setting })
    }
}
