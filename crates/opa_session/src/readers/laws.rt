// What readers come to.
ghost use Rattle.opa_session.specs.Readers.Renewals as law;

/// Readers that are the same are those of the same case.
pub fn same_are_readers()
    ensures { law.SameAreReaders }
{}
