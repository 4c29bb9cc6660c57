// Plans a frame from a sheet on standard input: docs/FORMATS.md says what a sheet is and what is printed of it.
#![tactic(auto)]

use sheet::reader::answer_from;
use std::io::Write;

fn main(rt: HostRuntime) -> anyhow::Result<()> {
    let printed = answer_from(rt.alloc(), rt.stdin())?;
    rt.stdout().write_all(printed.as_bytes())?;
    Ok(())
}
