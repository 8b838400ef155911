//! The table of worked examples.
ghost use Rattle.examples.specs.Worked.{WorkedExamples};

/// The worked examples hold.
pub fn worked_examples()
    ensures { WorkedExamples }
{}
