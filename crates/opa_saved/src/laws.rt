// What holds of all saved cases.
ghost use Rattle.opa_saved.specs.LoadLaws as law;
ghost use Rattle.opa_saved.specs.RoundTrip as round;

/// Bytes have one outcome: a case, or one of the six faults.
pub fn one_outcome()
    ensures loaded { law.OneLoaded }
    ensures fault { law.OneFault }
    ensures apart { law.LoadedOrFault }
{}

/// The days of version 1 are raised to those of the calendar.
pub fn first_is_raised()
    ensures { law.FirstIsRaised }
{}

/// A case that is saved is loaded as it was, and from this model.
pub fn saved_loads()
    ensures { round.SavedLoads }
{}

/// The entries of a file that is read are of different points, and in another order they make the same case and have the same fault.
pub fn any_order()
    ensures apart { law.ReadApart }
    ensures order { law.AnyOrder }
{}
