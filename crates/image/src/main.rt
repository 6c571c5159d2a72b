// Writes the bytes of the example memory to standard output.
#![tactic(auto)]

use anyhow::Context;
use example::{BYTES, write_example};
use std::io::Write;

fn main(rt: HostRuntime) -> anyhow::Result<()> {
    let mut bytes = vec![in rt.alloc(); 0u8; BYTES]?;
    write_example(bytes.as_mut_slice())
        .ok()
        .context("the example does not fit its memory")?;
    rt.stdout().write_all(bytes.as_slice())?;
    Ok(())
}
