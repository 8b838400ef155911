//! The head of an offer.
ghost use Rattle.std.specs.Prelude.{◌≡◌, ◌≤◌};
ghost use Rattle.heads.specs.Kinds.{network_code, contract_code};
ghost use Rattle.heads.specs.declared.head.TheConstants.{LONGEST_TERM, LATEST_FIRST};

use crate::kinds::{Contract, Network};
use crate::name::Name;

/// The longest minimum term, in months.
pub const LONGEST_TERM: u8 = 60;

/// The latest first day.
pub const LATEST_FIRST: u16 = 65_534;

/// The head of an offer: values that keep the rules.
#[derive(Clone, Copy)]
pub struct Head {
    pub(crate) supplier: u16,
    pub(crate) name: Name,
    pub(crate) network: Network,
    pub(crate) contract: Contract,
    pub(crate) term: u8,
    pub(crate) first: u16,
    pub(crate) last: u16,
    ghost known: { supplier ≤ 65535 },
    ghost bound: { term ≤ LONGEST_TERM },
    ghost begins: { first ≤ LATEST_FIRST },
    ghost ends: { last ≤ 65535 },
    ghost ordered: { first ≤ last },
    ghost mobile: { contract_code contract ≡ 2 → network_code network ≡ 2 },
    ghost termless: { contract_code contract ≡ 2 → term ≡ 0 },
}
