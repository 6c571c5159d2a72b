// The sizes that every store keeps to.

// A store has no more cells.
pub const MAX_CELLS: usize = 65_536;

// The highest head: every rank is below it.
pub const MAX_HEAD: u64 = 1 << 40;
