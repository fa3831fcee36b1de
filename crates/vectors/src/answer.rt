// What a call answers: the bytes, or the refusal, by the library's name for it. A call for which memory runs out
// answers nothing.
use anyhow::ensure;
use mode::Fault;
use reference::{Failure, Refusal};
use std::alloc::AllocError;

pub(crate) type Answer = Result<Vec<u8>, Fault>;

// The library's name for a refusal of the reference. Neither type is of this crate, so that no `From` can stand here.
fn fault_of(refusal: Refusal) -> Fault {
    match refusal {
        Refusal::KeyLength => Fault::KeyLength,
        Refusal::NonceTooLong => Fault::NonceTooLong,
        Refusal::DataTooLong => Fault::DataTooLong,
        Refusal::MessageTooLong => Fault::MessageTooLong,
        Refusal::CipherLength => Fault::CipherLength,
        Refusal::NotAuthentic => Fault::NotAuthentic,
    }
}

// What the reference answered. A function too, since both are types of other crates.
pub(crate) fn answer_of(given: Result<Vec<u8>, Failure>) -> Result<Answer, AllocError> {
    match given {
        Ok(bytes) => Ok(Ok(bytes)),
        Err(Failure::Refused(refusal)) => Ok(Err(fault_of(refusal))),
        Err(Failure::Memory(error)) => Err(error),
    }
}

// The refusals, with the codes of docs/REFUSALS.md: numbers, since both sides are held to them. The reference has no
// buffer that could be too short.
const CODES: [(Refusal, u8); 6] = [
    (Refusal::KeyLength, 1),
    (Refusal::NonceTooLong, 2),
    (Refusal::DataTooLong, 3),
    (Refusal::MessageTooLong, 4),
    (Refusal::CipherLength, 5),
    (Refusal::NotAuthentic, 7),
];

// That both give each refusal its code.
pub(crate) fn check_codes() -> anyhow::Result<()> {
    for (refusal, code) in &CODES {
        let fault = fault_of(*refusal);
        ensure!(
            refusal.code() == *code && fault.code() == *code,
            "refusal {code} has another code"
        );
    }
    ensure!(
        Fault::BufferTooShort.code() == 6,
        "refusal 6 has another code"
    );
    Ok(())
}
