//! Laws of the top.
ghost use Rattle.run_spec.specs.Isolation.{TenantsStandAlone};

/// A law: two runs, of any modes and with any numbers of workers, leave the same bytes in the files of a tenant that
/// has the same chain and the same capture, is done in both, and has the same records refused in both, whatever the
/// other tenants are.
pub fn tenants_stand_alone()
    ensures { TenantsStandAlone }
{}
