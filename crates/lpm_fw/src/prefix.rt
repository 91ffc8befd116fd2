/// A prefix, as a key.
#[derive(Clone, Copy, Debug, PartialEq, Eq, PartialOrd, Ord)]
pub(crate) struct Prefix {
    pub(crate) to: u32,
    pub(crate) bits: u8,
}
