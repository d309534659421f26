// Which slots a change reaches: those that are fresh, and the readers of what differs.
ghost use Rattle.opa_mean.specs.Reached.ByLists as by;
ghost use Rattle.opa_mean.specs.Reached.Dirty as law;
ghost use Rattle.opa_mean.specs.Reached.Settling as settling;

/// What was live before is dirty exactly where a line or a list differs that its rule could look at before.
pub fn dirty_by_old_reads()
    ensures { law.DirtyByOldReads }
{}

/// What was live before is dirty exactly where a line or a list differs that its rule can look at afterwards.
pub fn dirty_by_new_reads()
    ensures { law.DirtyByNewReads }
{}

/// What wasn't live before is dirty.
pub fn new_is_dirty()
    ensures { law.NewIsDirty }
{}

/// What is known at every day, of an attribute that never rests on whether something is known, is the same in every completion.
pub fn settled_stays()
    ensures { law.SettledStays }
{}

/// Where no list that a slot reads differs, it reads the same afterwards.
pub fn reads_stay()
    ensures { law.ReadsStay }
{}

/// What a live instance's slot reads is of lower rank, and at live instances.
pub fn reads_are_lower()
    ensures { law.ReadsAreLower }
{}

/// A slot is dirty exactly where it is fresh, or a line or a list differs that its rule can look at.
pub fn fresh_or_reads()
    ensures { law.FreshOrReads }
{}

/// The line of an attribute without a rule differs exactly where its answer does.
pub fn answers_differ()
    ensures { law.AnswersDiffer }
{}

/// Answers alone make nothing fresh.
pub fn nothing_is_fresh()
    ensures { settling.NothingIsFresh }
{}

/// Answers alone leave readers as they are.
pub fn readers_stay()
    ensures { settling.ReadersStay }
{}

/// Where the dirty slots were derived, their lines laid over those that are kept are current.
pub fn laid_are_current()
    ensures { settling.LaidAreCurrent }
{}

/// The same where the same instances are live, so that nothing has to be taken out.
pub fn laid_stay_current()
    ensures { settling.LaidStayCurrent }
{}

/// Where lists change, the slots of what comes wait at first, and the readers before of each list that differs.
pub fn lists_begin()
    ensures { by.ListsBegin }
{}

/// By the readers before a change it can be settled.
pub fn held_can_tell()
    ensures { by.HeldCanTell }
{}

/// Where lists change, the readers of what comes and of what read a list that differs are found anew; all others stay.
pub fn readers_then()
    ensures { by.ReadersThen }
{}

/// By the readers after a change it can be settled.
pub fn new_can_tell()
    ensures { by.NewCanTell }
{}

/// Where one list is set or forgotten and not written yet, the change is by lists.
pub fn relisted_is_by_lists()
    ensures { by.RelistedIsByLists }
{}
