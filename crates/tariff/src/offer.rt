//! An offer's total.
ghost use Rattle.std.specs.Prelude.{◌≡◌, ◌≤◌};
ghost use Rattle.tariff.specs.Totals.{most, offer_total};

use crate::tariff::Tariff;
use usage::Uses;

/// An offer's total: the charge for the drawn estimate, never below the floor, at most 10^18.
pub fn total<T: Tariff>(tariff: &T, estimate: Uses) -> u64
    ensures is { result ≡ offer_total (T.drawn tariff.now) (T.charged tariff.now) estimate.parts }
    ensures above { T.floor tariff.now ≤ result }
    ensures capped { result ≤ most }
{
    tariff.charge(&tariff.draw(estimate))
}
