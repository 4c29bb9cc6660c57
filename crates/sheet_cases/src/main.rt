// Answers each sheet that is named on the command line, so that many cases stand in one run. The files under data/
// and the expected output are written by tools/sheet_cases.py, from a model of its own.
#![tactic(auto)]

use sheet::reader::answer_from;
use std::{env, fs};

/// Of a longer answer only the first and last lines and the refusals are printed.
const LONG: usize = 30;

const ENDS: usize = 5;

// Whether the line of this index is printed of an answer of so many lines.
fn is_shown(count: usize, index: usize, line: &str) -> bool {
    let is_end = index < ENDS || count.saturating_sub(index) <= ENDS;
    count <= LONG || is_end || line.starts_with("refused")
}

// The lines are gone over three times and never listed, so that nothing is allocated for them.
fn show(rt: &HostRuntime, text: &str) -> anyhow::Result<()> {
    let count = text.lines().count();
    for (_, line) in text
        .lines()
        .enumerate()
        .filter(|(i, line)| is_shown(count, *i, line))
    {
        println!(rt; "  {line}")?;
    }
    let hidden = text
        .lines()
        .enumerate()
        .filter(|(i, line)| !is_shown(count, *i, line))
        .count();
    if hidden > 0 {
        println!(rt; "  ({hidden} lines not shown)")?;
    }
    Ok(())
}

fn show_case(rt: &HostRuntime, path: &str) -> anyhow::Result<()> {
    let name = path.strip_suffix(".txt").unwrap_or(path);
    println!(rt; "{name}:")?;
    let printed = answer_from(rt.alloc(), fs::open(rt, path)?)?;
    show(rt, printed.as_str())
}

fn main(rt: HostRuntime) -> anyhow::Result<()> {
    for path in env::args(&rt)?.skip(1) {
        show_case(&rt, path.as_str())?;
    }
    Ok(())
}
