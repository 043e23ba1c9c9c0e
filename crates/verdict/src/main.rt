//! Reads a model from standard input and prints the verdict on it.
#![tactic(auto)]

use anyhow::anyhow;
use loading::load::{LoadError, load_input};
use model::input::Input;
use std::io::Read;

/// Takes in all of standard input.
fn take_in(rt: &HostRuntime, input: &mut Input) -> anyhow::Result<()> {
    let mut buffer = vec![in rt.alloc(); 0u8; 16384]?;
    let mut stdin = rt.stdin();
    // a loop to the end of the input needs a bound, since every loop is proved to end
    for _ in 0..u64::MAX {
        let count = stdin.read(buffer.as_mut_slice())?;
        if count == 0 {
            break;
        }
        input.absorb(&buffer[0..count])?;
    }
    Ok(())
}

fn run(rt: &HostRuntime) -> anyhow::Result<()> {
    let mut input = Input::new(rt.alloc())?;
    take_in(rt, &mut input)?;
    match load_input(rt.alloc(), input) {
        Ok(model) => {
            println!(rt; "{}", model.tables())?;
            println!(rt; "accepted")?;
            Ok(())
        }
        Err(LoadError::Refused(fault)) => {
            println!(rt; "refused {fault}")?;
            Ok(())
        }
        Err(LoadError::NoMemory) => Err(anyhow!("no memory for the model")),
    }
}

fn main(rt: HostRuntime) -> anyhow::Result<()> {
    run(&rt)
}
