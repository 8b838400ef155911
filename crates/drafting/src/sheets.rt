//! Plan sheets read from files.
use anyhow::anyhow;
use cursor::Part;
use heads::RawHead;
use kinds::Plan;
use refusal::Printed;
use sheet::{Fault, PlanSheet, read};
use std::alloc::{AllocError, Global};
use std::{fs, io};
use tree::ServiceTree;

// The sheets that are tried: good ones, those that the layout refuses, and those that the draft refuses.
const SHEETS: [&str; 16] = [
    "alfa", "beta", "gama", "empty", "cut", "contract", "card", "days", "letter", "behind", "node",
    "dear", "branch", "order", "shared", "bare",
];

/// Reads each sheet, and prints its name and link, or why it is refused.
pub fn print_sheets(rt: &HostRuntime, tree: &ServiceTree) -> anyhow::Result<()> {
    println!(rt; "sheets")?;
    for name in SHEETS {
        let path = format!(in rt.alloc(); "sheets/{name}")?;
        let bytes = fs::read(rt, path.as_str())?;
        print!(rt; "sheet {name} sheets/{name}: ")?;
        print_sheet(rt, bytes.as_slice(), read(bytes.as_slice(), tree))?;
    }
    Ok(())
}

fn print_sheet(rt: &impl Print, bytes: &[u8], answer: Result<PlanSheet, Fault>) -> io::Result<()> {
    match answer {
        Ok(sheet) => {
            print!(rt; "ok name \"")?;
            print_text(rt, bytes, sheet.name)?;
            print!(rt; "\" link \"")?;
            print_text(rt, bytes, sheet.link)?;
            println!(rt; "\"")
        }
        Err(fault) => println!(rt; "refused {}", Printed(&fault)),
    }
}

// The bytes of a part, as they are.
fn print_text(rt: &impl Print, bytes: &[u8], part: Part) -> io::Result<()> {
    if let Some(text) = part.of(bytes) {
        for byte in text {
            let letter = char::from(*byte);
            print!(rt; "{letter}")?;
        }
    }
    Ok(())
}

/// The head and the plan of a sheet in a file.
pub fn sheet_in(
    rt: &HostRuntime,
    tree: &ServiceTree,
    file: &str,
) -> anyhow::Result<(RawHead, Plan)> {
    let bytes = fs::read(rt, file)?;
    let sheet = read(bytes.as_slice(), tree).map_err(|_| anyhow!(
        "a sheet of the example is refused"
    ))?;
    let head = raw_head(rt.alloc(), &sheet, bytes.as_slice())?;
    Ok((head, sheet.plan))
}

fn raw_head(heap: Global, sheet: &PlanSheet, bytes: &[u8]) -> Result<RawHead, AllocError> {
    let name = Vec::from_slice(heap, sheet.name.of(bytes).unwrap_or_default())?;
    let head = sheet.head;
    Ok(RawHead {
        supplier: head.supplier,
        name,
        network: head.network.into(),
        contract: head.contract.into(),
        term: head.term,
        first: head.first,
        last: head.last,
    })
}
