//! The stages of a listing, called singly.
use crate::making::{check_lines, line, stale};
use catalogue_tests::making::check_told;
use refusal::{Row, number_in};
use stages::{Cut, Gathering, Line};
use std::test::Fail;

// The number that beginning a list of this length is refused with, or 0.
fn beginning(length: usize) -> u16 {
    number_in(Gathering::begin(length))
}

#[test]
fn begin(rt: HostRuntime) -> Result<(), Fail> {
    let told = [
        beginning(0),
        beginning(1),
        beginning(20),
        beginning(21),
        beginning(usize::MAX),
    ];
    check_told(&told, &[20, 0, 0, 20, 20])
}

// Puts the lines in turn.
fn gathered(length: usize, lines: &[Line], memory: &mut [Line]) -> Result<Gathering, Fail> {
    let mut stage = Gathering::begin(length)?;
    for line in lines {
        stage = stage.put(memory, *line).map_err(|_| Fail::new("no room"))?;
    }
    Ok(stage)
}

// Gathers totals 7, 5 and 5, and cuts them.
fn cut(length: usize, memory: &mut [Line]) -> Result<Cut, Fail> {
    let stage = gathered(length, &[line(0, 7), line(1, 5), line(2, 5)], memory)?;
    stage.cut(memory).map_err(|_| Fail::new("no room"))
}

#[test]
fn put_by_total_then_place(rt: HostRuntime) -> Result<(), Fail> {
    let mut memory = [stale(); 5];
    let lines = [line(2, 7), line(3, 5), line(1, 5), line(0, 9)];
    let stage = gathered(3, &lines, &mut memory)?;
    assert_eq!(rt; stage.held(), 4);
    assert_eq!(rt; stage.length(), 3);
    // memory past the held lines stays
    check_lines(
        &memory,
        &[line(1, 5), line(3, 5), line(2, 7), line(0, 9), stale()],
    )
}

#[test]
fn put_into_short_memory(rt: HostRuntime) -> Result<(), Fail> {
    let mut memory = [stale(); 1];
    let stage = gathered(3, &[line(4, 6)], &mut memory)?;
    let Err((refusal, same)) = stage.put(&mut memory, line(5, 1)) else {
        return Err(Fail::new("put into no room"));
    };
    assert_eq!(rt; refusal.number(), 24);
    assert_eq!(rt; same.held(), 1);
    assert_eq!(rt; same.length(), 3);
    check_lines(&memory, &[line(4, 6)])
}

#[test]
fn cut_of_short_memory(rt: HostRuntime) -> Result<(), Fail> {
    let mut memory = [stale(); 2];
    let mut short = [stale(); 1];
    let stage = gathered(3, &[line(4, 6), line(5, 1)], &mut memory)?;
    let Err((refusal, same)) = stage.cut(&mut short) else {
        return Err(Fail::new("cut in no room"));
    };
    assert_eq!(rt; refusal.number(), 24);
    assert_eq!(rt; same.held(), 2);
    check_lines(&short, &[stale()])
}

#[test]
fn cuts(rt: HostRuntime) -> Result<(), Fail> {
    let mut memory = [stale(); 4];
    assert_eq!(rt; cut(3, &mut memory)?.shown(), 3);
    assert_eq!(rt; cut(2, &mut memory)?.shown(), 3);
    check_lines(&memory, &[line(1, 5), line(2, 5), line(0, 7), line(0, 0)])?;
    assert_eq!(rt; cut(1, &mut memory)?.shown(), 2);
    // memory behind is cleared
    check_lines(&memory, &[line(1, 5), line(2, 5), line(0, 0), line(0, 0)])
}

// The number that reading a line is refused with, or 0.
fn reading(cut: &Cut, memory: &[Line], at: usize) -> u16 {
    number_in(cut.line(memory, at))
}

#[test]
fn read(rt: HostRuntime) -> Result<(), Fail> {
    let mut memory = [stale(); 3];
    let short = [stale(); 1];
    let cut = cut(1, &mut memory)?;
    let told = [
        reading(&cut, &memory, 0),
        reading(&cut, &memory, 1),
        reading(&cut, &memory, 2),
        reading(&cut, &short, 0),
        // too short a memory comes before no such line
        reading(&cut, &short, 2),
    ];
    check_told(&told, &[0, 0, 26, 24, 24])?;
    check_lines(&[cut.line(&memory, 1)?], &[line(2, 5)])
}
