/// A record as it lies in its capture: the captured bytes are lent and not copied.
#[derive(Clone, Copy, Debug)]
pub struct Entry<'a> {
    /// Seconds since 1970-01-01 00:00:00 UTC.
    pub seconds: u32,
    /// Microseconds or nanoseconds behind the seconds, as the capture's magic number says. Any number may stand there.
    pub fraction: u32,
    /// The length in bytes that the frame had on the link.
    pub original: u32,
    /// The captured bytes.
    pub frame: &'a [u8],
}
