//! Laws on the definition of accepted chain files.

ghost use Rattle.chain_file.specs.Laws.{Ends, LongRefused, Order, Samples, Texts};

/// A law: some chain files, and what they give.
pub fn samples()
    ensures { Samples }
{}

/// A law: values at the ends of their ranges, and past them.
pub fn ends()
    ensures { Ends }
{}

/// A law: which of several faults comes first.
pub fn order()
    ensures { Order }
{}

/// A law: a file of more than 1,048,576 bytes is TooLong.
pub fn long_refused()
    ensures { LongRefused }
{}

/// A law: the lines of some faults.
pub fn texts()
    ensures { Texts }
{}
