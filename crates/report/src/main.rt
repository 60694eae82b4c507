// Reads a set file from standard input, and prints a report on it for people.
// It ends with status 0 if the set can be loaded, and with status 1 if it cannot.
#![tactic(auto)]

use set_file::LIBRARY_LIMIT;
use set_report::{report_on, report_text};
use std::io::Read;
use std::process::ExitCode;

fn main(rt: HostRuntime) -> anyhow::Result<ExitCode> {
    let heap = rt.alloc();
    let mut bytes = Vec::new(heap);
    // One byte past the limit is enough to see that a file is too long.
    rt.stdin()
        .take(LIBRARY_LIMIT as u64 + 1)
        .read_to_end(&mut bytes)?;
    let report = report_on(heap, &bytes);
    rt.print(report_text(heap, &report, &bytes)?)?;
    // The report has said why the set cannot be loaded, so nothing else is printed.
    Ok(match report.fault {
        None => ExitCode::SUCCESS,
        Some(_) => ExitCode::FAILURE,
    })
}
