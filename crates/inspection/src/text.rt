// All that is printed, in one text.
ghost use Rattle.std.specs.Prelude.{◌≡◌, ℕ, true, List, length, IfOk, string_bytes};
ghost use Rattle.std.specs.Option.{option_map};
ghost use Rattle.layout.specs.Blocks.{fit};
ghost use Rattle.inspection.specs.Prints.{holds_text, Printed};

use crate::argument::cell_count;
use crate::lines::{cells_text, header_text, refused, usage};
use blocks::{inspect, stored_header};
use std::alloc::{AllocError, Global};

// The text of a memory of `n` cells whose checks hold.
fn checks_hold(heap: Global, memory: &[u8], n: usize) -> Result<String, AllocError>
    requires { fit (length memory.now) n ≡ true }
    ensures { IfOk result (λ s. string_bytes s ≡ holds_text memory.now n) }
{
    let header = header_text(heap, n, stored_header(memory).unwrap())?;
    let cells = cells_text(heap, memory, n)?;
    format!(in heap; "checks hold\n{header}\n{cells}")
}

fn answer(heap: Global, argument: Option<&str>, memory: &[u8]) -> Result<String, AllocError>
    ensures text { IfOk result (λ s. Printed (option_map (λ x. x.now) argument.entry) memory.now (string_bytes s)) }
    ensures only { (out other : List ℕ) → Printed (option_map (λ x. x.now) argument.entry) memory.now out → Printed (option_map (λ x. x.now) argument.entry) memory.now other → out ≡ other }
{
    let Some(n) = cell_count(argument) else {
        return usage(heap);
    };
    match inspect(memory, n) {
        Ok(()) => checks_hold(heap, memory, n),
        Err(fault) => refused(heap, fault),
    }
}

// What is printed of the call's one argument and the bytes of a memory; `None` where there is no argument or several.
// There is only one such text.
pub fn inspection_text(
    heap: Global,
    argument: Option<&str>,
    memory: &[u8],
) -> Result<String, AllocError>
    ensures text { IfOk result (λ s. Printed (option_map (λ x. x.now) argument.entry) memory.now (string_bytes s)) }
    ensures only { (out other : List ℕ) → Printed (option_map (λ x. x.now) argument.entry) memory.now out → Printed (option_map (λ x. x.now) argument.entry) memory.now other → out ≡ other }
{
    answer(heap, argument, memory)
}
