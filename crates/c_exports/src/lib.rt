// What C may call: questions about a block memory, answered by the proved library.
#![tactic(auto)]

mod verdict;

ghost use Rattle.std.specs.Prelude.{◌≡◌};
ghost use Rattle.blocks.specs.Inspection.{fit_answer};
ghost use Rattle.c_exports.specs.Verdicts.{verdict_of, InspectedAs};

use verdict::Verdict;

// Whether a memory of `size` bytes is that of `cells` cells.
#[unsafe(no_mangle)]
pub extern "C" fn block_memory_fits(size: usize, cells: usize) -> Verdict
    ensures { result ≡ verdict_of (fit_answer size cells) }
{
    Verdict::of(blocks::fits(size, cells))
}

// Whether the memory fits `cells` cells and every block has its check; else the first that fails.
#[unsafe(no_mangle)]
pub extern "C" fn block_memory_inspect(memory: &[u8], cells: usize) -> Verdict
    ensures { InspectedAs memory.now cells result }
{
    Verdict::of(blocks::inspect(memory, cells))
}
