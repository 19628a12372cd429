// Reads a run file from standard input, and writes what it is answered with.
#![tactic(auto)]

use runner::{answer, input};

fn main(rt: HostRuntime) -> anyhow::Result<()> {
    let bytes = input(rt.alloc(), rt.stdin())?;
    let text = answer(rt.alloc(), &bytes)?;
    rt.print(text)?;
    Ok(())
}
