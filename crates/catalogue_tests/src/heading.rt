//! The edges of every rule for heads.
use crate::making::{check_told, subscription};
use heads::{Head, Name, RawHead};
use std::test::Fail;

// 1 where this text is a name, else 0.
fn named(text: &[u8]) -> u16 {
    u16::from(Name::new(text).is_some())
}

#[test]
fn lengths_of_names(rt: HostRuntime) -> Result<(), Fail> {
    let told = [named(&[]), named(&[65]), named(&[65; 24]), named(&[65; 25])];
    check_told(&told, &[0, 1, 1, 0])
}

#[test]
fn bytes_of_names(rt: HostRuntime) -> Result<(), Fail> {
    let told = [
        named(&[31]),
        named(&[32]),
        named(&[126]),
        named(&[127]),
        named(&[65, 65, 31]),
        named(&[127, 65, 65]),
    ];
    check_told(&told, &[0, 1, 1, 0, 0, 0])
}

// 1 where the values of a head keep the rules, else 0.
fn sound(raw: &RawHead) -> u16 {
    u16::from(Head::new(raw).is_some())
}

// 1 where a head with these days keeps the rules, else 0.
fn with_days(raw: &mut RawHead, first: u16, last: u16) -> u16 {
    raw.first = first;
    raw.last = last;
    sound(raw)
}

#[test]
fn days(rt: HostRuntime) -> Result<(), Fail> {
    let mut raw = subscription(rt.alloc(), 65, 10, 20)?;
    let told = [
        with_days(&mut raw, 0, 0),
        with_days(&mut raw, 65_534, 65_534),
        with_days(&mut raw, 65_534, 65_535),
        with_days(&mut raw, 65_535, 65_535),
        with_days(&mut raw, 10, 9),
        with_days(&mut raw, 10, 10),
    ];
    check_told(&told, &[1, 1, 1, 0, 0, 1])
}

// 1 where a head with this network, contract and term keeps the rules, else 0.
fn with_codes(raw: &mut RawHead, network: u8, contract: u8, term: u8) -> u16 {
    raw.network = network;
    raw.contract = contract;
    raw.term = term;
    sound(raw)
}

#[test]
fn codes(rt: HostRuntime) -> Result<(), Fail> {
    let mut raw = subscription(rt.alloc(), 65, 10, 20)?;
    let told = [
        with_codes(&mut raw, 0, 1, 0),
        with_codes(&mut raw, 1, 1, 0),
        with_codes(&mut raw, 2, 1, 0),
        with_codes(&mut raw, 3, 1, 0),
        with_codes(&mut raw, 2, 0, 0),
        with_codes(&mut raw, 2, 2, 0),
        with_codes(&mut raw, 2, 3, 0),
    ];
    check_told(&told, &[0, 1, 1, 0, 0, 1, 0])
}

#[test]
fn terms_and_cards(rt: HostRuntime) -> Result<(), Fail> {
    let mut raw = subscription(rt.alloc(), 65, 10, 20)?;
    let told = [
        with_codes(&mut raw, 1, 1, 60),
        with_codes(&mut raw, 1, 1, 61),
        // a card is mobile, and has no term
        with_codes(&mut raw, 1, 2, 0),
        with_codes(&mut raw, 2, 2, 1),
    ];
    check_told(&told, &[1, 0, 0, 0])
}

// The head of these values, or one that stands for none.
fn headed(raw: &RawHead) -> Head {
    Head::new(raw).unwrap_or(Head::blank())
}

#[test]
fn values_come_back(rt: HostRuntime) -> Result<(), Fail> {
    let head = headed(&subscription(rt.alloc(), 126, 10, 20)?);
    let told = [
        head.supplier(),
        u16::from(u8::from(head.network())),
        u16::from(u8::from(head.contract())),
        u16::from(head.term()),
        head.first(),
        head.last(),
    ];
    check_told(&told, &[7, 2, 1, 0, 10, 20])?;
    assert!(rt; head.name() == [126].as_slice());
    Ok(())
}

#[test]
fn comparing_heads(rt: HostRuntime) -> Result<(), Fail> {
    let heap = rt.alloc();
    let head = headed(&subscription(heap, 65, 10, 20)?);
    let tied = headed(&subscription(heap, 65, 20, 30)?);
    let later = headed(&subscription(heap, 66, 21, 30)?);
    let told = [
        head.is_on(9),
        head.is_on(10),
        head.is_on(20),
        head.is_on(21),
        head.shares_day(&tied),
        head.shares_day(&later),
        head.is_namesake(&tied),
        head.is_namesake(&later),
    ];
    assert!(rt; told == [false, true, true, false, true, false, true, false]);
    Ok(())
}
