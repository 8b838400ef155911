//! The number of each refusal, and the node that goes with it.
ghost use Rattle.std.specs.Prelude.{◌≡◌};
ghost use Rattle.draft.specs.Refusals.{row_of};
ghost use Rattle.draft.specs.declared.refusing.Refusal.TheVariants.{Tariff};

use crate::refusing::Refusal;
use refusal::{Row, Value};
use usage::Refusal as TariffRefusal;

impl Row for Refusal {
    ghost row = { row_of };

    fn number(&self) -> u16 {
        match *self {
            Refusal::NoSuchNode => 34,
            Refusal::Tariff(refusal) => refusal.number(),
            Refusal::BranchPriced(_) => 100,
            Refusal::BranchShared(_) => 110,
            Refusal::NoPrice(_) => 120,
        }
    }

    fn value(&self, at: usize) -> Option<Value> {
        match *self {
            Refusal::NoSuchNode => None,
            Refusal::Tariff(refusal) => refusal.value(at),
            Refusal::BranchPriced(node) | Refusal::BranchShared(node) | Refusal::NoPrice(node) => {
                [Value::Node(u64::from(node))].get(at).copied()
            }
        }
    }
}

impl From<TariffRefusal> for Refusal {
    ghost from_gives = { λ x y. y ≡ Tariff x };

    fn from(cause: TariffRefusal) -> Refusal {
        Refusal::Tariff(cause)
    }
}
