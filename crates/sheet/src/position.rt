// A place across the paper, measured from its edge.
#[derive(Clone, Copy, Debug, PartialEq, Eq)]
pub struct Position {
    pub mm: u32,
}
