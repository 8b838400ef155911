//! Sums and prices within their ranges.
ghost use Rattle.std.specs.Prelude.{◌≤◌};

/// The largest fixed sum, in hundredths of the currency.
pub const MOST_SUM: u32 = 1_000_000;

/// The largest unit price, in ten-thousandths of the currency.
pub const MOST_PRICE: u32 = 1_000_000;

// Sums and unit prices are two types, so that neither is taken for the other: they differ in unit and in what they charge.

/// A fixed sum, in hundredths of the currency.
#[derive(Clone, Copy)]
pub struct FixedSum {
    pub(crate) hundredths: u32,
    ghost low: { hundredths ≤ 1000000 },
}

/// The price of a unit, in ten-thousandths of the currency; so the price of a part in ten-millionths.
#[derive(Clone, Copy)]
pub struct UnitPrice {
    pub(crate) price: u32,
    ghost low: { price ≤ 1000000 },
}
