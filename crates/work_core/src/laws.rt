ghost use Rattle.work_core.specs.Keys.{ChainsOwnKeys};

/// A law: what a chain makes of a flow has keys of that flow.
pub fn chains_own_keys()
    ensures { ChainsOwnKeys }
{}
