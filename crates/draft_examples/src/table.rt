//! The table of worked examples of drafts.
ghost use Rattle.draft_examples.specs.Worked.{DraftedExamples};

/// The worked examples hold.
pub fn drafted_examples()
    ensures { DraftedExamples }
{}
