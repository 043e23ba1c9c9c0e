//! Reads many small models as text from standard input, and prints the verdict on each.
//!
//! A blank line and a line that begins with `#` are passed over. Any other line is a case, `NAME: ITEMS`, with spaces between the
//! items: they spell the bytes of an input, as the crate `spelling` says. The verdict on it is a line `NAME: accepted` or
//! `NAME: refused NUMBER TABLE ROW`, or `NAME: not a case` where the line is not of this form.
#![tactic(auto)]

use anyhow::anyhow;
use loading::load::{LoadError, LoadFault, load_input};
use model::input::Input;
use spelling::text::{SpellError, spelled};
use std::alloc::Global;
use std::fmt;
use std::io::{BufRead, BufReader};

/// What is printed of a case.
#[derive(Clone, Copy)]
enum Verdict {
    Accepted,
    Refused(LoadFault),
    NotACase,
}

impl fmt::Display for Verdict {
    fn fmt<W: fmt::Write>(&self, f: &mut fmt::Formatter<W>) -> fmt::Result {
        match self {
            Verdict::Accepted => write!(f, "accepted"),
            Verdict::Refused(fault) => write!(f, "refused {fault}"),
            Verdict::NotACase => write!(f, "not a case"),
        }
    }
}

/// The verdict on an input of these bytes.
fn judge(heap: Global, bytes: &[u8]) -> anyhow::Result<Verdict> {
    let mut input = Input::new(heap)?;
    input.absorb(bytes)?;
    match load_input(heap, input) {
        Ok(_) => Ok(Verdict::Accepted),
        Err(LoadError::Refused(fault)) => Ok(Verdict::Refused(fault)),
        Err(LoadError::NoMemory) => Err(anyhow!("no memory for the model")),
    }
}

/// The verdict on the input that the items spell.
fn verdict_on(heap: Global, items: &str) -> anyhow::Result<Verdict> {
    match spelled(heap, items) {
        Ok(bytes) => judge(heap, bytes.as_slice()),
        Err(SpellError::NotAnItem) => Ok(Verdict::NotACase),
        Err(SpellError::NoMemory) => Err(anyhow!("no memory for the bytes of a case")),
    }
}

/// Prints the verdict on the case in this line, if there is a case in it.
fn print_verdict(rt: &HostRuntime, line: &str) -> anyhow::Result<()> {
    if line.is_empty() || line.starts_with('#') {
        return Ok(());
    }
    let (name, verdict) = match line.split_once(':') {
        Some((name, items)) => (name, verdict_on(rt.alloc(), items)?),
        None => (line, Verdict::NotACase),
    };
    println!(rt; "{name}: {verdict}")?;
    Ok(())
}

fn run(rt: &HostRuntime) -> anyhow::Result<()> {
    for line in BufReader::new(rt.alloc(), rt.stdin())?.lines(rt.alloc()) {
        print_verdict(rt, line?.trim())?;
    }
    Ok(())
}

fn main(rt: HostRuntime) -> anyhow::Result<()> {
    run(&rt)
}
