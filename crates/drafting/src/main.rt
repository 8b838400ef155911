//! A plan drafted entry by entry, and plan sheets read from files.
#![tactic(auto)]

mod drafting;
mod sheets;

use anyhow::anyhow;
use drafting::print_drafting;
use sheets::print_sheets;
use tree::ServiceTree;

// The shop's services: nodes 1 and 2 under 0, and nodes 3 and 4. These four are the end services, with seats 0 to 3.
const SERVICES: [u8; 5] = [255, 0, 0, 255, 255];

fn main(rt: HostRuntime) -> anyhow::Result<()> {
    run(&rt)
}

fn run(rt: &HostRuntime) -> anyhow::Result<()> {
    let tree = ServiceTree::new(&SERVICES).map_err(|_| anyhow!("the shop's services are no tree"))?;
    print_drafting(rt, tree)?;
    rt.println("")?;
    print_sheets(rt, &tree)
}
