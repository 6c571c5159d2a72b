// What a store of so many cells checks before a call.
ghost use Rattle.std.specs.Prelude.{◌≡◌};
ghost use Rattle.stores.specs.Checks.{cell_check, some_check, start_check};

use crate::limits::MAX_HEAD;
use crate::refusal::StoreFault;

// Whether there is a cell `i`.
pub fn check_cell(cells: usize, i: usize) -> Result<(), StoreFault>
    ensures { result ≡ cell_check cells i }
{
    if i < cells {
        Ok(())
    } else {
        Err(StoreFault::NoSuchCell(i))
    }
}

// Whether there is a cell at all.
pub fn check_some(cells: usize) -> Result<(), StoreFault>
    ensures { result ≡ some_check cells }
{
    if cells > 0 {
        Ok(())
    } else {
        Err(StoreFault::NoCells)
    }
}

// Whether there is a cell at all, and the start is a rank.
pub fn check_start(cells: usize, start: u64) -> Result<(), StoreFault>
    ensures { result ≡ start_check cells start }
{
    check_some(cells)?;
    if start < MAX_HEAD {
        Ok(())
    } else {
        Err(StoreFault::StartTooHigh)
    }
}
