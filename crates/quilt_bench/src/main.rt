//! Makes single calls of the tree, of plans, of the audit and of map algebra many times, so that their instructions can be counted.
#![tactic(auto)]

mod algebra;
mod calls;
mod drawing;
mod planted;

use calls::{Sizes, WORDS, measured};
use std::env;

/// The number at a place of the arguments, or this one where there is none.
fn number_at(args: &[String], place: usize, otherwise: u32) -> anyhow::Result<u32> {
    match args.get(place) {
        None => Ok(otherwise),
        Some(text) => Ok(text.parse::<u32>()?),
    }
}

fn main(rt: HostRuntime) -> anyhow::Result<()> {
    let mut args = Vec::new(rt.alloc());
    for arg in env::args(&rt)?.skip(1) {
        args.push(arg)?;
    }
    let sizes = Sizes {
        records: number_at(&args, 1, 20_000)?,
        level: number_at(&args, 2, 6)?,
        calls: number_at(&args, 3, 10)?,
    };
    let wanted = match args.get(0) {
        None => "all",
        Some(word) => word.as_str(),
    };
    tell(&rt, &WORDS, wanted, sizes)
}

/// Prints what each of the words that are wanted answers.
fn tell(rt: &HostRuntime, words: &[&str], wanted: &str, sizes: Sizes) -> anyhow::Result<()> {
    for &word in words {
        if wanted == "all" || wanted == word {
            let answer = measured(rt.alloc(), word, sizes)?;
            println!(rt; "{word} {answer}")?;
        }
    }
    Ok(())
}
