// The two implementations, run on the same input.
use crate::answer::{Answer, answer_of};
use crate::bytes::cut_last;
use crate::case::Case;
use crate::library::Library;
use reference::{Kind, Reference, Setting};
use std::alloc::{AllocError, Global};

// One of the two.
pub(crate) trait Side {
    // The state after mixing.
    fn mixed(&self, kind: Kind, state: &[u8]) -> Result<Vec<u8>, AllocError>;

    fn sealed(&self, setting: &Setting, message: &[u8]) -> Result<Answer, AllocError>;

    fn opened(&self, setting: &Setting, cipher: &[u8], tag: &[u8]) -> Result<Answer, AllocError>;
}

impl Side for Reference {
    fn mixed(&self, kind: Kind, state: &[u8]) -> Result<Vec<u8>, AllocError> {
        self.mix(kind, state)
    }

    fn sealed(&self, setting: &Setting, message: &[u8]) -> Result<Answer, AllocError> {
        answer_of(self.seal(setting, message))
    }

    fn opened(&self, setting: &Setting, cipher: &[u8], tag: &[u8]) -> Result<Answer, AllocError> {
        answer_of(self.open(setting, cipher, tag))
    }
}

// What both answer; `how` says that they answer otherwise.
fn alike<T: PartialEq + Drop>(case: Case, how: &str, ours: T, theirs: &T) -> anyhow::Result<T> {
    if ours != *theirs {
        return Err(case.fails(how));
    }
    Ok(ours)
}

#[derive(Drop)]
pub(crate) struct Sides {
    pub(crate) heap: Global,
    pub(crate) library: Library,
    pub(crate) reference: Reference,
}

impl Sides {
    pub(crate) fn new(heap: Global) -> Sides {
        Sides {
            heap,
            library: Library::new(heap),
            reference: Reference::new(heap),
        }
    }

    // What both mix a state to.
    pub(crate) fn mix(&self, case: Case, state: &[u8]) -> anyhow::Result<Vec<u8>> {
        let ours = self.library.mixed(case.kind, state)?;
        let theirs = self.reference.mixed(case.kind, state)?;
        alike(case, "the two do not mix alike", ours, &theirs)
    }

    // What both answer to a sealing.
    pub(crate) fn seal(
        &self,
        case: Case,
        setting: &Setting,
        message: &[u8],
    ) -> anyhow::Result<Answer> {
        let ours = self.library.sealed(setting, message)?;
        let theirs = self.reference.sealed(setting, message)?;
        alike(case, "the two do not seal alike", ours, &theirs)
    }

    // What both answer to an opening.
    pub(crate) fn open(
        &self,
        case: Case,
        setting: &Setting,
        cipher: &[u8],
        tag: &[u8],
    ) -> anyhow::Result<Answer> {
        let ours = self.library.opened(setting, cipher, tag)?;
        let theirs = self.reference.opened(setting, cipher, tag)?;
        alike(case, "the two do not open alike", ours, &theirs)
    }

    // What both seal `message` to, and open again to `message`.
    pub(crate) fn round_trip(
        &self,
        case: Case,
        setting: &Setting,
        message: &[u8],
    ) -> anyhow::Result<Vec<u8>> {
        let Ok(sealed) = self.seal(case, setting, message)? else {
            return Err(case.fails("sealing was refused"));
        };
        let (cipher, tag) = cut_last(&sealed, setting.kind.block_len());
        match self.open(case, setting, cipher, tag)? {
            Ok(opened) if opened.as_slice() == message => Ok(sealed),
            _ => Err(case.fails("what was sealed does not open")),
        }
    }
}

// The two under one mixer. Cases and settings name it too: they are made for the files of vectors as well, without a pair.
#[derive(Clone, Copy)]
pub(crate) struct Pair<'a> {
    pub(crate) sides: &'a Sides,
    pub(crate) kind: Kind,
}

impl Pair<'_> {
    pub(crate) fn case(&self, what: &'static str, number: usize) -> Case {
        Case::of(self.kind, what, number)
    }
}
