//! The offer of the first worked example, made through the public functions.
ghost use Rattle.std.specs.Prelude.{◌≡◌, MatchResult};
ghost use Rattle.prices.specs.Tables.{table_data, empty_table};
ghost use Rattle.examples.specs.Offers.{plan_table, option_table, estimate, flags};

use kinds::{AddOn, PhoneOffer, Plan, Promotion};
use prices::{FixedSum, PriceTable, UnitPrice};
use usage::{Groups, Refusal, Seats, Uses};

/// Uses of 100, 500, 200 and 10 units at seats 0 to 3.
pub fn worked_estimate() -> Result<Uses, Refusal>
    ensures { MatchResult result (λ u. u.parts ≡ estimate) (λ _. ⊥) }
{
    Uses::new(&[
        100_000, 500_000, 200_000, 10_000, 0, 0, 0, 0, 0, 0, 0, 0, 0, 0, 0, 0,
    ])
}

/// The plan of the example under its option, with an empty second option and a promotion of nothing.
pub fn worked_offer() -> Result<PhoneOffer, Refusal>
    ensures { MatchResult result (λ o. (o.reduction.hundredths ≡ 0) × (table_data o.below.table ≡ empty_table) × (table_data o.below.below.table ≡ option_table) × (table_data o.below.below.below.table ≡ plan_table)) (λ _. ⊥) }
{
    let nothing = FixedSum::new(0)?;
    let plan = Plan::new(worked_plan()?);
    let option = AddOn::new(worked_option()?, plan);
    Ok(Promotion::new(nothing, AddOn::empty(option)))
}

// 10.00; 0.1 at seat 0 and 0.2 at seat 1; 50 units over both.
fn worked_plan() -> Result<PriceTable, Refusal>
    ensures { MatchResult result (λ t. table_data t ≡ plan_table) (λ _. ⊥) }
{
    let sum = FixedSum::new(1_000)?;
    let first = UnitPrice::new(1_000)?;
    let second = UnitPrice::new(2_000)?;
    let mut prices = [None; 16];
    prices[0] = Some(first);
    prices[1] = Some(second);
    let groups = Groups::none().add(seats(true, true, false), 50, 1)?;
    Ok(PriceTable::new(sum, prices, groups))
}

// 2.00; 0.15 at seat 2 and 0.5 at seat 3; 500 units over seats 1 and 2, then 10 over seat 2.
fn worked_option() -> Result<PriceTable, Refusal>
    ensures { MatchResult result (λ t. table_data t ≡ option_table) (λ _. ⊥) }
{
    let sum = FixedSum::new(200)?;
    let third = UnitPrice::new(1_500)?;
    let fourth = UnitPrice::new(5_000)?;
    let mut prices = [None; 16];
    prices[2] = Some(third);
    prices[3] = Some(fourth);
    let last = Groups::none().add(seats(false, false, true), 10, 2)?;
    let groups = last.add(seats(false, true, true), 500, 1)?;
    Ok(PriceTable::new(sum, prices, groups))
}

// The set of those of the first three seats that are flagged.
fn seats(first: bool, second: bool, third: bool) -> Seats
    ensures { result.flags ≡ flags first second third }
{
    let mut flags = [false; 16];
    flags[0] = first;
    flags[1] = second;
    flags[2] = third;
    Seats::new(flags)
}
