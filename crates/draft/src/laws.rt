//! What every draft holds, whatever was entered.
ghost use Rattle.draft.specs.Laws.{DraftsKeepEntries};

/// A draft's prices and groups are those that were entered, and no others.
pub fn drafts_keep_entries()
    ensures { DraftsKeepEntries }
{}
