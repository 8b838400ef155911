//! The encoding of a record of fields.
ghost use Rattle.std.specs.Prelude.{◌≡◌};
ghost use Rattle.sheet.specs.Records.{Fields, encoding};

/// Two records of fields with the same encoding are equal. The contract is the theorem; there is nothing to run.
pub fn one_to_one()
    ensures { (f g : Fields) → encoding f ≡ encoding g → f ≡ g }
{}
