//! A draft, entry by entry, with what each was answered.
use draft::{Draft, Refusal};
use kinds::Plan;
use refusal::Printed;
use std::io;
use tree::ServiceTree;

/// Prints how the plan of the worked offer is drafted, with some entries that are declined.
pub fn print_drafting(rt: &impl Print, tree: ServiceTree) -> io::Result<()> {
    println!(rt; "a draft on nodes 1 and 2 under 0, and nodes 3 and 4")?;
    let empty = Draft::new(tree);
    let draft = enter(rt, "price 1 1000", empty, empty.price(1, 1_000))?;
    let draft = enter(rt, "price 0 900", draft, draft.price(0, 900))?;
    let draft = enter(rt, "group 1 50 0", draft, draft.group(1, 50, &[0]))?;
    let draft = enter(rt, "group 2 10 1", draft, draft.group(2, 10, &[1]))?;
    save(rt, draft.save_plan(1_000))?;
    let draft = enter(rt, "price 2 2000", draft, draft.price(2, 2_000))?;
    save(rt, draft.save_plan(1_000))
}

// Prints the answer to an entry, and gives the draft that it leaves.
fn enter(
    rt: &impl Print,
    entry: &str,
    draft: Draft,
    answer: Result<Draft, Refusal>,
) -> io::Result<Draft> {
    print!(rt; "{entry}: ")?;
    match answer {
        Ok(next) => {
            rt.println("ok")?;
            Ok(next)
        }
        Err(refusal) => {
            println!(rt; "refused {}", Printed(&refusal))?;
            Ok(draft)
        }
    }
}

// Prints the answer to saving a plan.
fn save(rt: &impl Print, answer: Result<Plan, Refusal>) -> io::Result<()> {
    print!(rt; "plan worked sum=1000: ")?;
    match answer {
        Ok(_) => rt.println("ok"),
        Err(refusal) => println!(rt; "refused {}", Printed(&refusal)),
    }
}
