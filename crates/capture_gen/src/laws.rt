ghost use Rattle.capture_gen.specs.Accepted.{GeneratedChainsAreAccepted};

/// A law: the generated chain file is accepted for every folder that mode `gen` takes, and says one chain.
pub fn generated_chains_are_accepted()
    ensures { GeneratedChainsAreAccepted }
{}
