// What one zone is set to: a target and a trim, in hundredths of a per cent moisture. Any pair may be asked for, so the
// type has no range of its own: what is set is judged.
#[derive(Clone, Copy, Debug, PartialEq, Eq)]
pub struct Zone {
    pub target: u16,
    pub trim: i16,
}
