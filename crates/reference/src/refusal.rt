// Why a call gives no bytes.
ghost use Rattle.std.specs.Prelude.{◌≡◌};
ghost use Rattle.reference.specs.Codes.{code_of, failure_code};
ghost use Rattle.reference.specs.declared.refusal.Failure.TheVariants.{Refused, Memory};

use std::alloc::AllocError;

// What the mode refuses.
#[derive(Clone, Copy, Debug, PartialEq, Eq)]
pub enum Refusal {
    KeyLength,
    NonceTooLong,
    DataTooLong,
    MessageTooLong,
    CipherLength,
    NotAuthentic,
}

impl Refusal {
    // The code of docs/REFUSALS.md. A match, so that each code stands in a row of its own, as there.
    pub fn code(self) -> u8
        ensures { result ≡ code_of self }
    {
        match self {
            Refusal::KeyLength => 1,
            Refusal::NonceTooLong => 2,
            Refusal::DataTooLong => 3,
            Refusal::MessageTooLong => 4,
            Refusal::CipherLength => 5,
            Refusal::NotAuthentic => 7,
        }
    }
}

#[derive(Clone, Copy, Debug, PartialEq, Eq)]
pub enum Failure {
    Refused(Refusal),
    // memory ran out
    Memory(AllocError),
}

impl Failure {
    // The code of the refusal, or 0 where memory ran out.
    pub fn code(self) -> u8
        ensures { result ≡ failure_code self }
    {
        match self {
            Failure::Refused(refusal) => refusal.code(),
            Failure::Memory(_) => 0,
        }
    }
}

impl From<Refusal> for Failure {
    ghost from_gives = { λ refusal failure. failure ≡ Refused refusal };

    fn from(refusal: Refusal) -> Failure {
        Failure::Refused(refusal)
    }
}

impl From<AllocError> for Failure {
    ghost from_gives = { λ error failure. failure ≡ Memory error };

    fn from(error: AllocError) -> Failure {
        Failure::Memory(error)
    }
}
