//! Promotions: a fixed sum off the charge and the floor of any tariff.
ghost use Rattle.kinds.specs.Meanings.{reduced};
ghost use Rattle.kinds.specs.Laws.{reduced_most, reduced_above};

use prices::FixedSum;
use tariff::Tariff;
use usage::Uses;

/// A promotion over a tariff: it serves and draws as that one does, and takes up to a fixed sum off charge and floor.
#[derive(Clone, Copy)]
pub struct Promotion<T> {
    pub(crate) reduction: FixedSum,
    pub(crate) below: T,
}

impl<T: Tariff> Tariff for Promotion<T> {
    ghost served = { λ t k. T.Tariff.served t.below k };

    ghost drawn = { λ t us. T.Tariff.drawn t.below us };

    ghost charged = { λ t us. reduced t.reduction.hundredths (T.Tariff.charged t.below us) };

    ghost floor = { λ t. reduced t.reduction.hundredths (T.Tariff.floor t.below) };

    ghost keeps = { λ t us u. T.Tariff.keeps t.below us u };

    ghost lowers = { λ t us u k. T.Tariff.lowers t.below us u k };

    ghost capped = { λ t us u. reduced_most t.reduction.hundredths _ (T.Tariff.capped t.below us u) };

    ghost above = { λ t us u. reduced_above t.reduction.hundredths _ _ (T.Tariff.above t.below us u) };

    fn serves(&self, seat: usize) -> bool {
        self.below.serves(seat)
    }

    fn draw(&self, uses: Uses) -> Uses {
        self.below.draw(uses)
    }

    fn charge(&self, uses: &Uses) -> u64 {
        self.below
            .charge(uses)
            .saturating_sub(self.reduction.amount())
    }

    fn floor(&self) -> u64 {
        self.below.floor().saturating_sub(self.reduction.amount())
    }
}
