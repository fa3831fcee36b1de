// Why a sealing or an opening is refused, in the order in which it is judged.
ghost use Rattle.std.specs.Prelude.{◌≡◌, Some};
ghost use Rattle.mode.specs.Faults.{code_of, text_of};

use std::error::Error;
use std::fmt;

#[derive(Clone, Copy, Debug, PartialEq, Eq)]
pub enum Fault {
    // the key is not one block long
    KeyLength,
    // the nonce is longer than one block
    NonceTooLong,
    // the associated data is longer than 4,096 bytes
    DataTooLong,
    // the message is longer than 65,536 bytes
    MessageTooLong,
    // ciphertext or tag has a length that no sealing gives
    CipherLength,
    // the buffer to write into is too short
    BufferTooShort,
    // tag or padding is wrong; which of them is never told
    NotAuthentic,
}

impl Fault {
    // The number that stands for the refusal outside of the program. A match, as for a sheet's faults: those carry places,
    // and an enum whose variants carry values takes no discriminants.
    pub fn code(self) -> u8
        ensures { result ≡ code_of self }
    {
        match self {
            Fault::KeyLength => 1,
            Fault::NonceTooLong => 2,
            Fault::DataTooLong => 3,
            Fault::MessageTooLong => 4,
            Fault::CipherLength => 5,
            Fault::BufferTooShort => 6,
            Fault::NotAuthentic => 7,
        }
    }
}

impl fmt::Display for Fault {
    ghost output = { λ fault. Some (text_of fault) };

    fn fmt<W: fmt::Write>(&self, f: &mut fmt::Formatter<W>) -> fmt::Result {
        f.write_str(match self {
            Fault::KeyLength => "the key is not one block long",
            Fault::NonceTooLong => "the nonce is longer than one block",
            Fault::DataTooLong => "the associated data is longer than 4,096 bytes",
            Fault::MessageTooLong => "the message is longer than 65,536 bytes",
            Fault::CipherLength => "ciphertext or tag has a length that no sealing gives",
            Fault::BufferTooShort => "the buffer to write into is too short",
            Fault::NotAuthentic => "tag or padding is wrong",
        })
    }
}

impl Error for Fault {}
