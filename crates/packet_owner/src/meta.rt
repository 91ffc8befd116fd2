/// What is known of a packet beside its frame.
#[derive(Clone, Copy, Debug, Default)]
pub(crate) struct Meta {
    /// The number of the record that it comes from.
    pub(crate) a: u64,
    /// Its place among the items of that record.
    pub(crate) j: u32,
    /// The seconds since 1970-01-01 00:00:00 UTC.
    pub(crate) seconds: u32,
    /// The microseconds or nanoseconds behind them.
    pub(crate) fraction: u32,
    /// How many bytes the frame has on the link.
    pub(crate) original: u32,
}
