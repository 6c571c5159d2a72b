// Rehearses the plan on standard input, and prints what comes of it.
#![tactic(auto)]

use rehearsals::rehearsal_text;
use std::io;
use std::io::{Read, Write};

fn main(rt: HostRuntime) -> io::Result<()> {
    let heap = rt.alloc();
    let mut plan = Vec::new(heap);
    rt.stdin().read_to_end(&mut plan)?;
    let text = rehearsal_text(heap, plan.as_slice())?;
    rt.stdout().write_all(text.as_bytes())
}
