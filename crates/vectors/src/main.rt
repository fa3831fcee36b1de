// Runs the proved library and the plain second implementation side by side, and prints what was compared. Where they
// differ it says in which case, and ends with an error.
#![tactic(auto)]

mod answer;
mod bits;
mod bytes;
mod case;
mod damage;
mod fields;
mod inputs;
mod lengths;
mod library;
mod mixings;
mod published;
mod sides;
mod stored;
mod tally;

use answer::check_codes;
use library::KINDS;
use published::published_vectors;
use sides::{Pair, Sides};
use stored::stored_vectors;

// What is computed for each mixer.
fn run_tables(rt: &impl Print, sides: &Sides) -> anyhow::Result<()> {
    for kind in &KINDS {
        let pair = Pair { sides, kind: *kind };
        rt.println(pair.mixings()?)?;
        rt.println(pair.lengths()?)?;
        rt.println(pair.damaged_copies()?)?;
    }
    Ok(())
}

// What is compared with the files.
fn run_files(rt: &HostRuntime, sides: &Sides) -> anyhow::Result<()> {
    let text = std::fs::read_to_string(rt, "published.txt")?;
    let count = published_vectors(sides, text.as_str())?;
    println!(rt;
        "published vectors, in their own convention: {count} sealed by both mixings; as whole bytes in our order {count} give other bytes"
    )?;
    let text = std::fs::read_to_string(rt, "regression.txt")?;
    let count = stored_vectors(sides, text.as_str())?;
    println!(rt; "stored vectors: {count} sealed and opened by both")?;
    Ok(())
}

fn run(rt: &HostRuntime) -> anyhow::Result<()> {
    let sides = Sides::new(rt.alloc());
    check_codes()?;
    run_tables(rt, &sides)?;
    run_files(rt, &sides)?;
    rt.println("all agree")?;
    Ok(())
}

fn main(rt: HostRuntime) -> anyhow::Result<()> {
    run(&rt)
}
