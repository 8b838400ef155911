//! The calls of the small shop: offers of both piles, some declined calls, and lists for two gates.
use crate::offers::{blocks, plain_plan};
use anyhow::anyhow;
use catalogue::Slot;
use examples::worked_offer;
use heads::{Contract, Network, RawHead};
use journal::{Call, Given};
use kinds::{DataOffer, PhoneOffer};
use listing::Enquiry;
use stages::Line;
use std::alloc::{AllocError, Global};
use usage::Refusal;

// What was made of an example's own values.
fn made<T: Drop>(value: Result<T, Refusal>) -> anyhow::Result<T> {
    value.map_err(|_| anyhow!("a value of the example is refused"))
}

// A mobile offer of a supplier for these days: a card has term 0, a subscription 12 months.
fn head(
    heap: Global,
    supplier: u16,
    name: &str,
    contract: Contract,
    first: u16,
    last: u16,
) -> Result<RawHead, AllocError> {
    let term = match contract {
        Contract::Subscription => 12,
        Contract::Card => 0,
    };
    Ok(RawHead {
        supplier,
        name: Vec::from_slice(heap, name.as_bytes())?,
        network: Network::Mobile.into(),
        contract: contract.into(),
        term,
        first,
        last,
    })
}

// An enquiry on a day for mobile offers of either contract and up to 24 months, with so many lines lent.
fn list<T>(
    heap: Global,
    day: u16,
    length: usize,
    estimate: &[u32],
    lines: usize,
) -> Result<Call<T>, AllocError> {
    let enquiry = Enquiry {
        day,
        network: Network::Mobile.into(),
        contract: 0,
        term: 24,
        length,
        estimate: Vec::from_slice(heap, estimate)?,
    };
    let memory = vec![in heap; Line { place: 9, total: 9 }; lines]?;
    Ok(Call::List(enquiry, memory))
}

// The first gate reports much, the second little.
const FIRST_GATE: [u32; 16] = [
    100_000, 500_000, 200_000, 10_000, 0, 0, 0, 0, 0, 0, 0, 0, 0, 0, 0, 0,
];

const SECOND_GATE: [u32; 16] = [20_000, 5_000, 0, 0, 0, 0, 0, 0, 0, 0, 0, 0, 0, 0, 0, 0];

/// What the phone catalogue is given, and what each call is in words.
pub fn phone_given(heap: Global) -> anyhow::Result<(Given<PhoneOffer>, Vec<&'static str>)> {
    let mut script = Script::new(heap);
    phone_entries(heap, &mut script)?;
    phone_changes(heap, &mut script)?;
    phone_lists(heap, &mut script)?;
    let Script { calls, labels } = script;
    let slots = vec![in heap; Slot::empty(); 8]?;
    let tariffs = vec![in heap; made(worked_offer())?; 8]?;
    let answers = Vec::with_capacity(heap, calls.len())?;
    let given = Given {
        slots,
        tariffs,
        calls,
        answers,
    };
    Ok((given, labels))
}

/// What the data catalogue is given, and what each call is in words.
pub fn data_given(heap: Global) -> anyhow::Result<(Given<DataOffer>, Vec<&'static str>)> {
    let mut script = Script::new(heap);
    data_calls(heap, &mut script)?;
    let Script { calls, labels } = script;
    let slots = vec![in heap; Slot::empty(); 4]?;
    let tariffs = vec![in heap; made(blocks(0, 1_000, 0, 0))?; 4]?;
    let answers = Vec::with_capacity(heap, calls.len())?;
    let given = Given {
        slots,
        tariffs,
        calls,
        answers,
    };
    Ok((given, labels))
}

// Calls in their order, and what each is in words: a run is given the calls alone.
#[derive(Drop)]
struct Script<T> {
    calls: Vec<Call<T>>,
    labels: Vec<&'static str>,
}

impl<T: Drop> Script<T> {
    fn new(heap: Global) -> Script<T> {
        Script {
            calls: Vec::new(heap),
            labels: Vec::new(heap),
        }
    }

    // One call more.
    fn add(&mut self, label: &'static str, call: Call<T>) -> Result<(), AllocError> {
        self.labels.push(label)?;
        self.calls.push(call)?;
        Ok(())
    }
}

// Three offers are entered and published, and a fourth that is a namesake of the first.
fn phone_entries(heap: Global, script: &mut Script<PhoneOffer>) -> anyhow::Result<()> {
    script.add(
        "enter phone 0",
        Call::Enter(
            0,
            head(heap, 7, "Alfa 10", Contract::Subscription, 100, 500)?,
            made(worked_offer())?,
        ),
    )?;
    script.add("publish phone 0", Call::Publish(0))?;
    script.add(
        "enter phone 1",
        Call::Enter(
            1,
            head(heap, 9, "Beta", Contract::Subscription, 0, 65_535)?,
            made(plain_plan(1_500, 700, 200))?,
        ),
    )?;
    script.add("publish phone 1", Call::Publish(1))?;
    script.add(
        "enter phone 2",
        Call::Enter(
            2,
            head(heap, 12, "Gama card", Contract::Card, 0, 65_535)?,
            made(plain_plan(0, 3_000, 0))?,
        ),
    )?;
    script.add("publish phone 2", Call::Publish(2))?;
    script.add(
        "enter phone 3",
        Call::Enter(
            3,
            head(heap, 7, "Alfa 10", Contract::Subscription, 400, 900)?,
            made(plain_plan(900, 900, 0))?,
        ),
    )?;
    script.add("publish phone 3", Call::Publish(3))?;
    Ok(())
}

// The namesake's days are put apart, and calls that are declined.
fn phone_changes(heap: Global, script: &mut Script<PhoneOffer>) -> anyhow::Result<()> {
    script.add("amend phone 0", Call::Amend(0, 399))?;
    script.add("publish phone 3", Call::Publish(3))?;
    script.add("amend phone 0", Call::Amend(0, 400))?;
    script.add("delete phone 0", Call::Delete(0))?;
    script.add(
        "enter phone 8",
        Call::Enter(
            8,
            head(heap, 9, "Beta", Contract::Subscription, 0, 10)?,
            made(plain_plan(1, 1, 0))?,
        ),
    )?;
    script.add(
        "enter phone 4",
        Call::Enter(
            4,
            head(heap, 9, "", Contract::Subscription, 0, 10)?,
            made(plain_plan(1, 1, 0))?,
        ),
    )?;
    script.add("amend phone 5", Call::Amend(5, 10))?;
    script.add(
        "enter phone 4",
        Call::Enter(
            4,
            head(heap, 9, "Beta", Contract::Subscription, 0, 10)?,
            made(plain_plan(1, 1, 0))?,
        ),
    )?;
    script.add("amend phone 4", Call::Amend(4, 0))?;
    script.add("delete phone 4", Call::Delete(4))?;
    Ok(())
}

// Both gates on two days, and lists that are declined.
fn phone_lists(heap: Global, script: &mut Script<PhoneOffer>) -> anyhow::Result<()> {
    script.add(
        "list phone, first gate, day 300",
        list(heap, 300, 2, &FIRST_GATE, 8)?,
    )?;
    script.add(
        "list phone, second gate, day 300",
        list(heap, 300, 1, &SECOND_GATE, 8)?,
    )?;
    script.add(
        "list phone, first gate, day 450",
        list(heap, 450, 20, &FIRST_GATE, 8)?,
    )?;
    script.add(
        "list phone of no totals",
        list(heap, 300, 0, &FIRST_GATE, 8)?,
    )?;
    script.add("list phone in 7 lines", list(heap, 300, 2, &FIRST_GATE, 7)?)?;
    script.add("list phone for 3 uses", list(heap, 300, 2, &[1, 2, 3], 8)?)?;
    Ok(())
}

// Two data offers, and both gates.
fn data_calls(heap: Global, script: &mut Script<DataOffer>) -> anyhow::Result<()> {
    script.add(
        "enter data 0",
        Call::Enter(
            0,
            head(heap, 20, "Small blocks", Contract::Subscription, 0, 65_535)?,
            made(blocks(300, 1_000, 40, 5))?,
        ),
    )?;
    script.add(
        "enter data 3",
        Call::Enter(
            3,
            head(heap, 21, "Large blocks", Contract::Subscription, 0, 65_535)?,
            made(blocks(200, 10_000, 500, 0))?,
        ),
    )?;
    script.add("publish data 0", Call::Publish(0))?;
    script.add("publish data 3", Call::Publish(3))?;
    script.add("publish data 3", Call::Publish(3))?;
    script.add(
        "list data, second gate",
        list(heap, 65_534, 2, &SECOND_GATE, 4)?,
    )?;
    script.add(
        "list data, first gate",
        list(heap, 65_534, 2, &FIRST_GATE, 4)?,
    )?;
    Ok(())
}
