//! Plays the entries whose names stand on standard input, one a line, and prints of each whether it is as listed.
//!
//! An entry NAME is the files `NAME.model` and `NAME.schedule`, the bytes of a model and of a schedule, and `NAME.listing`, the text
//! that their listing is to be. What is printed of it is `NAME: as listed`, or `NAME: not as listed` and then its listing.
#![tactic(auto)]

use entry::entry::listing;
use model::input::Input;
use std::fs;
use std::io::{BufRead, BufReader, Read};

/// Takes in all of a file.
fn take_in(rt: &HostRuntime, input: &mut Input, path: &str) -> anyhow::Result<()> {
    let mut buffer = vec![in rt.alloc(); 0u8; 16384]?;
    let mut file = fs::open(rt, path)?;
    // a loop to the end of the file needs a bound, since every loop is proved to end
    for _ in 0..u64::MAX {
        let count = file.read(buffer.as_mut_slice())?;
        if count == 0 {
            break;
        }
        input.absorb(&buffer[0..count])?;
    }
    Ok(())
}

/// The listing of an entry, as text.
fn listing_text(rt: &HostRuntime, name: &str) -> anyhow::Result<String> {
    let mut input = Input::new(rt.alloc())?;
    for part in ["model", "schedule"] {
        let path = format!(in rt.alloc(); "{name}.{part}")?;
        take_in(rt, &mut input, path.as_str())?;
    }
    let listing = listing(rt.alloc(), input)?;
    Ok(format!(in rt.alloc(); "{listing}")?)
}

/// Plays the entry, and prints whether it is as listed.
fn play(rt: &HostRuntime, name: &str) -> anyhow::Result<()> {
    let text = listing_text(rt, name)?;
    let path = format!(in rt.alloc(); "{name}.listing")?;
    let wanted = fs::read_to_string(rt, path.as_str())?;
    if text.as_str() == wanted.as_str() {
        println!(rt; "{name}: as listed")?;
    } else {
        println!(rt; "{name}: not as listed")?;
        print!(rt; "{text}")?;
    }
    Ok(())
}

fn run(rt: &HostRuntime) -> anyhow::Result<()> {
    for name in BufReader::new(rt.alloc(), rt.stdin())?.lines(rt.alloc()) {
        play(rt, name?.trim())?;
    }
    Ok(())
}

fn main(rt: HostRuntime) -> anyhow::Result<()> {
    run(&rt)
}
