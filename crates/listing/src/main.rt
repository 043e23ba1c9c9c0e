//! Reads an entry from standard input, a model and a schedule directly behind it, and prints its listing: what each choice of the
//! schedule comes to over a house, and the account of the run.
#![tactic(auto)]

use anyhow::Context;
use entry::entry::listing;
use model::input::Input;
use std::env;
use std::io::{self, BufWriter, Read, Write};
use std::process::ExitCode;

const VERSION: &str = "listing 1.0";

const HELP: &str = "\
Usage: listing < ENTRY

Reads an entry from standard input, a model and a schedule directly behind it, makes the choices of the schedule over a house,
and prints a line for each, `CHOICE ok` or `CHOICE NUMBER`, and then the account. A model that is refused prints
`refused NUMBER TABLE ROW` alone, a schedule that is refused `refused 9`.

  --help     prints this text
  --version  prints the version

Ends with status 0 for every input, with 1 where memory lacks or the input or the output fails, and with 2 at any other argument.";

/// What the arguments ask for.
#[derive(Clone, Copy)]
enum Request {
    Listing,
    Help,
    Version,
}

/// Takes in all of standard input.
fn take_in(rt: &HostRuntime, input: &mut Input) -> anyhow::Result<()> {
    let mut buffer = vec![in rt.alloc(); 0u8; 16384]?;
    let mut stdin = rt.stdin();
    // a loop to the end of the input needs a bound, since every loop is proved to end
    for _ in 0..u64::MAX {
        let count = stdin.read(buffer.as_mut_slice())?;
        if count == 0 {
            break;
        }
        input.absorb(&buffer[0..count])?;
    }
    Ok(())
}

/// Reads an entry and prints its listing.
fn print_listing(rt: &HostRuntime) -> anyhow::Result<()> {
    let mut input = Input::new(rt.alloc())?;
    take_in(rt, &mut input)?;
    let listing = listing(rt.alloc(), input)?;
    let mut out = BufWriter::new(rt.alloc(), io::writer(rt))?;
    write!(out, "{listing}")?;
    out.flush()?;
    Ok(())
}

/// What is asked for by the arguments behind the program's name: the first one counts, and none may be unknown.
fn asked_for(rt: &HostRuntime) -> anyhow::Result<Option<Request>> {
    let mut request = None;
    for argument in env::args(rt)?.skip(1) {
        let asked = match argument.as_str() {
            "--help" => Request::Help,
            "--version" => Request::Version,
            _ => return Ok(None),
        };
        request = request.or(Some(asked));
    }
    Ok(Some(request.unwrap_or(Request::Listing)))
}

fn run(rt: &HostRuntime) -> anyhow::Result<ExitCode> {
    match asked_for(rt)? {
        Some(Request::Listing) => print_listing(rt)?,
        Some(Request::Help) => println!(rt; "{HELP}")?,
        Some(Request::Version) => println!(rt; "{VERSION}")?,
        None => {
            eprintln!(rt; "listing: unknown argument; `listing --help` tells the ones there are")?;
            return Ok(ExitCode::from(2));
        }
    }
    Ok(ExitCode::SUCCESS)
}

fn main(rt: HostRuntime) -> anyhow::Result<ExitCode> {
    run(&rt)
}
