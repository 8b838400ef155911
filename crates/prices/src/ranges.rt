//! Sums and prices from raw numbers, and their numbers back.
ghost use Rattle.std.specs.Prelude.{◌≡◌, ◌<◌, ◌≤◌, MatchResult};
ghost use Rattle.usage.specs.declared.refusing.Refusal.TheVariants.{OutOfRange};
ghost use Rattle.prices.specs.Amounts.{fixed_part};

use crate::amounts::{FixedSum, MOST_PRICE, MOST_SUM, UnitPrice};
use usage::Refusal;

impl FixedSum {
    /// The sum of so many hundredths: refused with 32 over 1,000,000.
    pub fn new(hundredths: u32) -> Result<FixedSum, Refusal>
        ensures { MatchResult result (λ s. (hundredths ≤ 1000000) × (s.hundredths ≡ hundredths)) (λ e. (1000000 < hundredths) × (e ≡ OutOfRange)) }
    {
        let hundredths = in_range(hundredths, 0, MOST_SUM)?;
        Ok(FixedSum { hundredths })
    }

    /// The sum in hundredths.
    pub fn hundredths(&self) -> u32
        ensures is { result ≡ self.now.hundredths }
        ensures bound { result ≤ 1000000 }
    {
        self.hundredths
    }

    /// The sum as a total, in ten-millionths.
    pub fn amount(&self) -> u64
        ensures is { result ≡ fixed_part self.now.hundredths }
        ensures bound { result ≤ 100000000000 }
    {
        100_000 * u64::from(self.hundredths)
    }
}

impl UnitPrice {
    /// The price of so many ten-thousandths: refused with 32 over 1,000,000.
    pub fn new(price: u32) -> Result<UnitPrice, Refusal>
        ensures { MatchResult result (λ p. (price ≤ 1000000) × (p.price ≡ price)) (λ e. (1000000 < price) × (e ≡ OutOfRange)) }
    {
        let price = in_range(price, 0, MOST_PRICE)?;
        Ok(UnitPrice { price })
    }

    /// The price in ten-thousandths.
    pub fn price(&self) -> u32
        ensures is { result ≡ self.now.price }
        ensures bound { result ≤ 1000000 }
    {
        self.price
    }
}

// The number, if it is from the least to the most: refused with 32 else.
pub(crate) fn in_range(number: u32, least: u32, most: u32) -> Result<u32, Refusal>
    ensures { MatchResult result (λ n. ((least ≤ number) × (number ≤ most)) × (n ≡ number)) (λ e. ((least ≤ number) × (number ≤ most) → ⊥) × (e ≡ OutOfRange)) }
{
    if (least..=most).contains(&number) {
        Ok(number)
    } else {
        Err(Refusal::OutOfRange)
    }
}
