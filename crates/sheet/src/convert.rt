//! Faults of the layout and refusals of the draft as faults of the sheet.
ghost use Rattle.std.specs.Prelude.{◌≡◌};
ghost use Rattle.sheet.specs.Faults.{with_byte};
ghost use Rattle.sheet.specs.declared.fault.Fault.TheVariants.{Layout};

use crate::fault::Fault;
use cursor::Fault as LayoutFault;
use draft::Refusal;

impl From<LayoutFault> for Fault {
    ghost from_gives = { λ x y. y ≡ Layout x };

    fn from(fault: LayoutFault) -> Fault {
        Fault::Layout(fault)
    }
}

// A draft's answer, with the byte that a refusal names.
pub(crate) fn with_byte<T>(answer: Result<T, Refusal>, byte: usize) -> Result<T, Fault>
    ensures { result ≡ with_byte byte answer }
{
    answer.map_err(|refusal| Fault::Draft(refusal, byte))
}
