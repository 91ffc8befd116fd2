//! Words of a tenant.

/// What a tenant does where no buffer is free.
#[derive(Clone, Copy, Debug, PartialEq, Eq)]
pub enum Dry {
    /// It waits for one.
    Wait,
    /// It drops the record.
    Drop,
}

/// What becomes of a frame of class Other.
#[derive(Clone, Copy, Debug, PartialEq, Eq)]
pub enum Unparsed {
    /// It passes the stages, and goes to the groups.
    Pass,
    /// It is dropped as Unparsed.
    Drop,
}
