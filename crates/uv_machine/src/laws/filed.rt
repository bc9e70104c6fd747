//! Laws on the files of objects and calls, who tears a file, and what windows use.

ghost use Rattle.uv_machine.specs.Filed.{LegalIsFiled, LegalTornWell, LegalHasDomains};

/// Objects and calls are of files in use: none of a file that was never opened or is closed.
pub fn legal_is_filed()
    ensures { LegalIsFiled }
{}

/// A file that is torn is torn by an actor.
pub fn legal_torn_well()
    ensures { LegalTornWell }
{}

/// A window that isn't a husk uses a domain.
pub fn legal_has_domains()
    ensures { LegalHasDomains }
{}
