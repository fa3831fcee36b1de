// One comparison, by name.
use anyhow::anyhow;
use reference::Kind;

#[derive(Clone, Copy)]
pub(crate) struct Case {
    pub(crate) kind: Kind,
    what: &'static str,
    number: usize,
}

impl Case {
    // `number` is a length, an index or the number of a line, as `what` says.
    pub(crate) fn of(kind: Kind, what: &'static str, number: usize) -> Case {
        Case { kind, what, number }
    }

    // The error that says how this comparison failed.
    pub(crate) fn fails(self, how: &str) -> anyhow::Error {
        anyhow!("{}, {} {}: {how}", self.kind, self.what, self.number)
    }
}
