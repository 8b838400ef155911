//! A run of calls, and what each was answered.
use crate::money::Money;
use anyhow::anyhow;
use catalogue::Catalogue;
use journal::{Answer, Given, Granted, Replayed, replay};
use refusal::Printed;
use stages::Line;
use std::io;
use tariff::Tariff;

/// Replays the calls and prints each answer behind its label, with the lines of each list.
pub fn print_run<T: Tariff + Drop>(
    rt: &impl Print,
    given: Given<T>,
    labels: &[&str],
) -> anyhow::Result<()> {
    let places = given.slots.len();
    let Replayed { catalogue, answers } = replay(given).map_err(|_| anyhow!(
        "the run was not begun"
    ))?;
    println!(rt; "a catalogue of {places} places")?;
    let refused = print_answers(rt, &catalogue, answers.as_slice(), labels)?;
    let calls = answers.len();
    println!(rt; "ran {calls} calls, {refused} refused")?;
    Ok(())
}

// Prints each answer behind its label, and says how many are refusals.
fn print_answers<T>(
    rt: &impl Print,
    catalogue: &Catalogue<T>,
    answers: &[Answer<T>],
    labels: &[&str],
) -> io::Result<usize> {
    for (answer, label) in answers.iter().zip(labels) {
        print!(rt; "{label}: ")?;
        print_answer(rt, catalogue, answer)?;
    }
    Ok(answers.iter().filter(|answer| answer.is_err()).count())
}

// Prints an answer, with the lines of a list.
fn print_answer<T>(
    rt: &impl Print,
    catalogue: &Catalogue<T>,
    answer: &Answer<T>,
) -> io::Result<()> {
    match answer {
        Ok(Granted::Done) => println!(rt; "ok"),
        Ok(Granted::Shown(shown, costed, memory)) => {
            println!(rt; "shown {shown} costed {costed}")?;
            print_lines(rt, catalogue, memory.as_slice(), *shown)
        }
        Err(declined) => println!(rt; "refused {}", Printed(&declined.refusal)),
    }
}

// The lines shown, with supplier and name of each offer.
fn print_lines<T>(
    rt: &impl Print,
    catalogue: &Catalogue<T>,
    memory: &[Line],
    shown: usize,
) -> io::Result<()> {
    for line in memory.iter().take(shown) {
        print_line(rt, catalogue, line)?;
    }
    Ok(())
}

fn print_line<T>(rt: &impl Print, catalogue: &Catalogue<T>, line: &Line) -> io::Result<()> {
    let place = line.place;
    print!(rt; "  place {place} total {}", Money(line.total))?;
    if let Some((head, _)) = catalogue.offer(place) {
        let supplier = head.supplier();
        print!(rt; " supplier {supplier} name \"")?;
        for byte in head.name() {
            let letter = char::from(*byte);
            print!(rt; "{letter}")?;
        }
        print!(rt; "\"")?;
    }
    rt.println("")
}
