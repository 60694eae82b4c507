// Prints the report on each file that is named, under its name.
#![tactic(auto)]

use set_report::{report_on, report_text};
use std::{env, fs};

fn print_report(rt: &HostRuntime, name: &str) -> anyhow::Result<()> {
    let heap = rt.alloc();
    let bytes = fs::read(rt, name)?;
    let report = report_on(heap, &bytes);
    println!(rt; "{name}")?;
    rt.println(report_text(heap, &report, &bytes)?)?;
    Ok(())
}

fn main(rt: HostRuntime) -> anyhow::Result<()> {
    for name in env::args(&rt)?.skip(1) {
        print_report(&rt, &name)?;
    }
    Ok(())
}
