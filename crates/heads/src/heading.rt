//! Heads from raw values, and how two heads compare.
ghost use Rattle.std.specs.Prelude.{◌≡◌, ◌<◌, ◌≤◌, Decides, MatchOption};
ghost use Rattle.heads.specs.Kinds.{network_code, contract_code};
ghost use Rattle.heads.specs.Rules.{SoundHead, On, Namesakes, ShareADay, ending, blank};
ghost use Rattle.heads.specs.Heads.{head_data, raw_data};

use crate::head::{Head, LATEST_FIRST, LONGEST_TERM};
use crate::kinds::{Contract, Network};
use crate::name::{MOST_BYTES, Name};
use crate::raw::RawHead;

impl Head {
    /// The head of these values, if they keep the rules.
    pub fn new(raw: &RawHead) -> Option<Head>
        ensures { MatchOption result (SoundHead (raw_data raw.now) → ⊥) (λ h. SoundHead (raw_data raw.now) × (head_data h ≡ raw_data raw.now)) }
    {
        let name = Name::new(&raw.name)?;
        let network = Network::try_from(raw.network).ok()?;
        let contract = Contract::try_from(raw.contract).ok()?;
        let (supplier, term, first, last) = (raw.supplier, raw.term, raw.first, raw.last);
        if term > LONGEST_TERM
            || first > LATEST_FIRST
            || last < first
            || !suits(network, contract, term)
        {
            return None;
        }
        Some(Head {
            supplier,
            name,
            network,
            contract,
            term,
            first,
            last,
        })
    }

    /// A head that stands in memory for none: supplier 0, named by a blank, for day 0.
    pub fn blank() -> Head
        ensures { head_data result ≡ blank }
    {
        let mut bytes = [0; MOST_BYTES];
        bytes[0] = b' ';
        Head {
            supplier: 0,
            name: Name { bytes, len: 1 },
            network: Network::Fixed,
            contract: Contract::Subscription,
            term: 0,
            first: 0,
            last: 0,
        }
    }

    /// The head with another last day, unless that is before the first.
    pub fn with_last(&self, last: u16) -> Option<Head>
        ensures { MatchOption result (last < (head_data self.now).first) (λ h. ((head_data self.now).first ≤ last) × (head_data h ≡ ending (head_data self.now) last)) }
    {
        if last < self.first {
            return None;
        }
        let mut head = *self;
        head.last = last;
        Some(head)
    }

    /// Whether the day is from the first to the last, both counted.
    pub fn is_on(&self, day: u16) -> bool
        ensures { Decides result (On (head_data self.now) day) }
    {
        (self.first..=self.last).contains(&day)
    }

    /// Whether two heads have the same supplier and the same name.
    pub fn is_namesake(&self, other: &Head) -> bool
        ensures { Decides result (Namesakes (head_data self.now) (head_data other.now)) }
    {
        self.supplier == other.supplier && self.name.is_same(&other.name)
    }

    /// Whether some day is on both heads.
    pub fn shares_day(&self, other: &Head) -> bool
        ensures { Decides result (ShareADay (head_data self.now) (head_data other.now)) }
    {
        self.first <= other.last && other.first <= self.last
    }
}

// Whether a card is mobile and has term 0.
fn suits(network: Network, contract: Contract, term: u8) -> bool
    ensures { Decides result (contract_code contract ≡ 2 → (network_code network ≡ 2) × (term ≡ 0)) }
{
    matches!(
        (contract, network, term),
        (Contract::Subscription, _, _) | (Contract::Card, Network::Mobile, 0)
    )
}
