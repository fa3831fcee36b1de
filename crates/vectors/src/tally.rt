// What was compared, in numbers.
use reference::Kind;
use std::fmt;

#[derive(Drop)]
pub(crate) struct Mixings {
    pub(crate) kind: Kind,
    pub(crate) states: usize,
}

impl fmt::Display for Mixings {
    fn fmt<W: fmt::Write>(&self, f: &mut fmt::Formatter<W>) -> fmt::Result {
        write!(f, "{}: states mixed: {}", self.kind, self.states)
    }
}

#[derive(Drop)]
pub(crate) struct Lengths {
    pub(crate) kind: Kind,
    pub(crate) messages: usize,
    pub(crate) nonces: usize,
    pub(crate) ads: usize,
    pub(crate) sealings: usize,
    pub(crate) openings: usize,
}

impl fmt::Display for Lengths {
    fn fmt<W: fmt::Write>(&self, f: &mut fmt::Formatter<W>) -> fmt::Result {
        write!(
            f,
            "{}: lengths sealed and opened: {} of messages, {} of nonces, {} of data",
            self.kind, self.messages, self.nonces, self.ads
        )?;
        write!(
            f,
            "; refused: {} to seal, {} to open",
            self.sealings, self.openings
        )
    }
}

#[derive(Drop)]
pub(crate) struct Damage {
    pub(crate) kind: Kind,
    pub(crate) refused: usize,
    pub(crate) opened: usize,
}

impl fmt::Display for Damage {
    fn fmt<W: fmt::Write>(&self, f: &mut fmt::Formatter<W>) -> fmt::Result {
        write!(
            f,
            "{}: damaged copies: {} refused, {} opened",
            self.kind, self.refused, self.opened
        )
    }
}
