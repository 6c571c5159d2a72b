// The log of deliveries, in entries that the caller lends.
ghost use Rattle.std.specs.Prelude.{◌≤◌, length};

use protocol::Entry;

mod calls;

pub use calls::find;

#[derive(Drop)]
pub struct Log<'a, I> {
    entries: &'a mut [Entry<I>],
    // The first so many entries are kept; the others are room, or left from an earlier life. No `Vec`: the memory is lent.
    count: usize,
    ghost within: { count ≤ length entries.now },
}
