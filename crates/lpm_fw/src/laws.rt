ghost use Rattle.brick_spec.specs.Route.{FirstFaultIsFirst};
ghost use Rattle.lpm_fw.specs.Laws.{OneLongestPrefix};

/// A law: of rows without a fault, at most one contains an address while no containing prefix is longer. So the chosen
/// row does not hang on the order of the rows.
pub fn one_longest_prefix()
    ensures { OneLongestPrefix }
{}

/// A law: the first fault of a table, as a function finds it, is the fault of a row before which no row has one, and
/// there is none exactly where no row has one.
pub fn first_fault_is_first()
    ensures { FirstFaultIsFirst }
{}
