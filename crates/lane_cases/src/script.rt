//! The steps of a script.

/// One of two workers.
#[derive(Clone, Copy, Debug)]
pub enum Worker {
    First,
    Second,
}

/// A step, and what it must find.
#[derive(Clone, Copy, Debug)]
pub enum Step {
    /// A claim gives a buffer, in which the next record is sent to this worker.
    To(Worker),
    /// A claim gives no buffer.
    Miss,
    /// The worker receives the record of this number, and releases its buffer.
    Take(Worker, u64),
    /// The worker finds nothing.
    Nothing(Worker),
    /// The ingest finishes.
    Finish,
    /// The worker takes END.
    End(Worker),
}

/// How far a script is.
#[derive(Debug, Drop)]
pub struct Progress {
    /// The number of the next record.
    pub next: u32,
    pub finished: bool,
    /// Whether each worker took END.
    pub first_ended: bool,
    pub second_ended: bool,
}
