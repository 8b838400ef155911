//! What an enquiry asks of an offer's head.
ghost use Rattle.std.specs.Prelude.{◌≡◌, ◌≢◌, true, false, Ok, Err, MatchOption, MatchResult};
ghost use Rattle.heads.specs.Heads.{head_data};
ghost use Rattle.listing.specs.declared.refusing.Refusal.TheVariants.{BadEnquiry};
ghost use Rattle.listing.specs.Enquiries.{EnquiryData, enquiry_data};
ghost use Rattle.listing.specs.Tests.{asked_for, sound_values};
ghost use Rattle.listing.specs.Asked.{Asks, agrees_with};

use crate::enquiry::Enquiry;
use crate::fitting::{LATEST_DAY, LONGEST_TERM};
use crate::refusing::Refusal;
use heads::{Contract, Head, Network};

/// What an enquiry asks of an offer's head. Where it names no network or no contract, either will do.
#[derive(Clone, Copy)]
pub(crate) struct Asked {
    pub(crate) day: u16,
    pub(crate) network: Option<Network>,
    pub(crate) contract: Option<Contract>,
    pub(crate) term: u8,
}

impl Enquiry {
    // What is asked of a head: refused with 22 where day, network, contract or term is out of range.
    pub(crate) fn asked(&self) -> Result<Asked, Refusal>
        ensures { MatchResult result (λ a. (sound_values (enquiry_data self.now) ≡ true) × Asks a (enquiry_data self.now)) (λ e. (e ≡ BadEnquiry) × (sound_values (enquiry_data self.now) ≡ false)) }
    {
        if self.day > LATEST_DAY || self.term > LONGEST_TERM {
            return Err(Refusal::BadEnquiry);
        }
        Ok(Asked {
            day: self.day,
            network: kind(self.network)?,
            contract: kind(self.contract)?,
            term: self.term,
        })
    }
}

impl Asked {
    // Whether an offer of this head is asked for.
    pub(crate) fn admits(&self, head: &Head) -> bool
        ensures { (q : EnquiryData) → Asks self.now q → result ≡ asked_for q (head_data head.now) }
    {
        head.first() <= self.day
            && self.day <= head.last()
            && agree(self.network, head.network())
            && agree(self.contract, head.contract())
            && head.term() <= self.term
    }
}

// Whether a kind is the one asked for; where none is, either will do.
fn agree<K: PartialEq + Drop>(asked: Option<K>, kind: K) -> bool
    ensures { result ≡ agrees_with K.eq asked kind }
{
    asked.is_none_or(|asked| asked == kind)
}

// The kind of this code, or none for 0, which asks for either.
fn kind<K: TryFrom<u8>>(code: u8) -> Result<Option<K>, Refusal>
where
    K::Error: Drop,
    ensures { MatchResult result (λ o. MatchOption o (code ≡ 0) (λ k. (code ≢ 0) × K.try_from_gives code (Ok k))) (λ e. (e ≡ BadEnquiry) × (code ≢ 0) × (x : K.Error) × K.try_from_gives code (Err x)) }
{
    if code == 0 {
        return Ok(None);
    }
    K::try_from(code).map(Some).map_err(|_| Refusal::BadEnquiry)
}
