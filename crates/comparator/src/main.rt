//! The comparator: one offer's bill, and a small shop's catalogues from opening to the lists for two gates.
#![tactic(auto)]

mod bill;
mod money;
mod offers;
mod report;
mod shop;

use bill::print_bill;
use report::print_run;
use shop::{data_given, phone_given};

fn main(rt: HostRuntime) -> anyhow::Result<()> {
    run(&rt)
}

fn run(rt: &HostRuntime) -> anyhow::Result<()> {
    print_bill(rt)?;
    rt.println("")?;
    let (given, labels) = phone_given(rt.alloc())?;
    print_run(rt, given, labels.as_slice())?;
    rt.println("")?;
    let (given, labels) = data_given(rt.alloc())?;
    print_run(rt, given, labels.as_slice())
}
