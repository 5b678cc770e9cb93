// Counts the tags of a sheet. Lines `path_tags:` with hex bytes and `draw_tags:` with hex words come in, in any number;
// the totals and, for each draw tag, the record of those before it go out.
#![tactic(auto)]

mod input;
mod report;

use crate::input::read_sheet;
use crate::report::{Report, count};
use std::io;
use std::process::ExitCode;

fn run(rt: &HostRuntime) -> anyhow::Result<()> {
    let heap = rt.alloc();
    let text = io::read_to_string(heap, rt.stdin())?;
    let sheet = read_sheet(heap, text.as_str())?;
    let counts = count(heap, &sheet)?;
    let report = Report {
        sheet: &sheet,
        counts: &counts,
    };
    print!(rt; "{report}")?;
    Ok(())
}

fn main(rt: HostRuntime) -> ExitCode {
    match run(&rt) {
        Ok(()) => ExitCode::SUCCESS,
        Err(e) => {
            let _ = eprintln!(rt; "{e}");
            ExitCode::FAILURE
        }
    }
}
