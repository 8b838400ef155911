//! Lists of uses from raw numbers, and their numbers back.
ghost use Rattle.std.specs.Prelude.{◌≡◌, MatchResult};
ghost use Rattle.usage.specs.declared.refusing.Refusal.TheVariants.{BadUses};
ghost use Rattle.usage.specs.UsesLists.{UsesList, small};

use crate::refusing::Refusal;
use crate::uses::{MOST_PARTS, SEATS, Uses};

impl Uses {
    /// The list of these numbers of parts: refused with 30 unless they are 16, each at most 100,000,000.
    pub fn new(numbers: &[u32]) -> Result<Uses, Refusal>
        ensures { MatchResult result (λ u. UsesList numbers.now × (u.parts ≡ numbers.now)) (λ e. (e ≡ BadUses) × (UsesList numbers.now → ⊥)) }
    {
        if numbers.len() != SEATS || !are_small(numbers) {
            return Err(Refusal::BadUses);
        }
        let mut parts = [0; 16];
        parts.copy_from_slice(numbers);
        Ok(Uses { parts })
    }

    /// The parts at each seat.
    pub fn parts(&self) -> [u32; 16]
        ensures same { result ≡ self.now.parts }
        ensures listed { UsesList result }
    {
        self.parts
    }
}

// Whether each number is within the bound.
fn are_small(numbers: &[u32]) -> bool
    ensures { result ≡ small numbers.now }
{
    numbers.iter().all(|number| *number <= MOST_PARTS)
}
