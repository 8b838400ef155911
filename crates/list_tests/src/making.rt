//! Offers and enquiries for the tests.
use catalogue::Catalogue;
use catalogue_tests::making::{check, subscription};
use heads::RawHead;
use kinds::Plan;
use listing::Enquiry;
use prices::{FixedSum, PriceTable, UnitPrice};
use std::alloc::{AllocError, Global};
use std::test::Fail;
use usage::{Groups, Refusal};

// A plan of a sum in hundredths and a price at seat 0; it serves no other seat.
pub fn plan(sum: u32, price: u32) -> Result<Plan, Refusal> {
    let mut prices = [None; 16];
    prices[0] = Some(UnitPrice::new(price)?);
    let table = PriceTable::new(FixedSum::new(sum)?, prices, Groups::none());
    Ok(Plan::new(table))
}

// Enters and publishes a plan for days 10 to 20, under a name of one letter.
pub fn offer(
    heap: Global,
    catalogue: &mut Catalogue<Plan>,
    place: usize,
    letter: u8,
    plan: Plan,
) -> Result<(), Fail> {
    let head = subscription(heap, letter, 10, 20)?;
    publish_under(catalogue, place, &head, plan)
}

// Enters and publishes a plan under a head.
pub fn publish_under(
    catalogue: &mut Catalogue<Plan>,
    place: usize,
    head: &RawHead,
    plan: Plan,
) -> Result<(), Fail> {
    let entered = catalogue.enter(place, head, plan).is_ok();
    let published = catalogue.publish(place).is_ok();
    check(entered && published, "not published")
}

// An enquiry for day 15, any network, contract and term, with these parts at seat 0.
pub fn enquiry(heap: Global, length: usize, parts: u32) -> Result<Enquiry, AllocError> {
    Ok(Enquiry {
        day: 15,
        network: 0,
        contract: 0,
        term: 60,
        length,
        estimate: vec![in heap; parts, 0, 0, 0, 0, 0, 0, 0, 0, 0, 0, 0, 0, 0, 0, 0]?,
    })
}
