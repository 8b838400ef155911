//! One offer costed for one estimate: what each layer of its tariff does.
use crate::money::Money;
use examples::{worked_estimate, worked_offer};
use kinds::PhoneOffer;
use prices::PriceTable;
use refusal::Printed;
use std::io;
use tariff::{Tariff, total};
use usage::{Refusal, Uses};

/// Prints the bill of the worked example.
pub fn print_bill(rt: &impl Print) -> io::Result<()> {
    match worked() {
        Ok((offer, estimate)) => {
            println!(rt; "one offer's bill")?;
            report(rt, &offer, estimate)
        }
        Err(refusal) => println!(rt; "refused {}", Printed(&refusal)),
    }
}

// The worked offer, and its estimate.
fn worked() -> Result<(PhoneOffer, Uses), Refusal> {
    Ok((worked_offer()?, worked_estimate()?))
}

// The offer's groups, overrun, charges, floor and total for an estimate.
fn report(rt: &impl Print, offer: &PhoneOffer, estimate: Uses) -> io::Result<()> {
    let second = offer.below();
    let first = second.below();
    let plan = first.below();
    println!(rt; "estimate:")?;
    print_uses(rt, &estimate)?;
    let left = draw_layer(rt, "plan", plan.table(), estimate)?;
    let left = draw_layer(rt, "first option", first.table(), left)?;
    let overrun = draw_layer(rt, "second option", second.table(), left)?;
    println!(rt; "overrun:")?;
    print_uses(rt, &overrun)?;
    print_charges(rt, offer, &overrun)?;
    println!(rt; "floor: {}", Money(offer.floor()))?;
    println!(rt; "total: {}", Money(total(offer, estimate)))
}

// What each layer charges: the layers below an option are charged for the list with its priced seats at 0.
fn print_charges(rt: &impl Print, offer: &PhoneOffer, overrun: &Uses) -> io::Result<()> {
    let second = offer.below();
    let first = second.below();
    let plan = first.below();
    let for_first = overrun.without(&second.table().priced());
    let for_plan = for_first.without(&first.table().priced());
    println!(rt; "plan charges: {}", Money(plan.charge(&for_plan)))?;
    println!(rt; "with first option: {}", Money(first.charge(&for_first)))?;
    println!(rt; "with second option: {}", Money(second.charge(overrun)))?;
    println!(rt; "with promotion: {}", Money(offer.charge(overrun)))
}

// Draws the groups of one layer by ascending order, and prints what each drew.
fn draw_layer(rt: &impl Print, name: &str, table: &PriceTable, uses: Uses) -> io::Result<Uses> {
    let mut left = uses;
    for group in table.groups().entries() {
        let after = group.draw(left);
        let order = group.order();
        let units = group.units();
        println!(rt; "{name}, group of order {order}, {units} units:")?;
        print_draws(rt, &left, &after)?;
        left = after;
    }
    Ok(left)
}

fn print_draws(rt: &impl Print, before: &Uses, after: &Uses) -> io::Result<()> {
    let from = before.parts();
    let to = after.parts();
    for (seat, (held, kept)) in from.iter().zip(&to).enumerate() {
        let drew = held.saturating_sub(*kept);
        if drew > 0 {
            println!(rt; "  seat {seat} drew {drew} parts")?;
        }
    }
    Ok(())
}

fn print_uses(rt: &impl Print, uses: &Uses) -> io::Result<()> {
    for (seat, parts) in uses.parts().iter().enumerate() {
        if *parts > 0 {
            println!(rt; "  seat {seat}: {parts} parts")?;
        }
    }
    Ok(())
}
