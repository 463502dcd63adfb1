// Shows what is in a bundle, and says whether it opens or which of the causes 1 to 5 keeps it from opening.
#![tactic(auto)]

use anyhow::anyhow;
use bundle::examine;
use console::answer;
use listing::list;
use opening::refusal_of;
use std::io::{BufRead, BufReader};
use std::{env, fs};
use words::{OPENS, explain};

const USAGE: &str = "usage: startlist examine [FILE]";

fn main(rt: HostRuntime) -> anyhow::Result<()> {
    run(&rt)
}

fn run(rt: &HostRuntime) -> anyhow::Result<()> {
    let mut args = env::args(rt)?.skip(1);
    match args.next() {
        Some(command) if command.as_str() == "examine" => {}
        _ => return Err(anyhow!(USAGE)),
    }
    match (args.next(), args.next()) {
        (None, _) => answer_lines(rt),
        (Some(path), None) => examine_file(rt, path.as_str()),
        _ => Err(anyhow!(USAGE)),
    }
}

// The listing of a bundle in a file, or its size alone, and then the cause.
fn examine_file(rt: &HostRuntime, path: &str) -> anyhow::Result<()> {
    let heap = rt.alloc();
    let bytes = match fs::read(rt, path) {
        Ok(bytes) => bytes,
        Err(e) => return Err(anyhow!(format!(in heap; "cannot read {path}: {e}")?)),
    };
    match examine(&bytes) {
        Ok(bundle) => rt.println(list(heap, bundle)?)?,
        Err(_) => println!(rt; "{} bytes", bytes.len())?,
    }
    match refusal_of(&bytes) {
        Some(refusal) => rt.println(explain(heap, &bytes, refusal)?)?,
        None => rt.println(OPENS)?,
    }
    Ok(())
}

// An answer for each line of the standard input.
fn answer_lines(rt: &HostRuntime) -> anyhow::Result<()> {
    let heap = rt.alloc();
    for line in BufReader::new(heap, rt.stdin())?.split(heap, b'\n') {
        rt.println(answer(heap, &line?)?)?;
    }
    Ok(())
}
