// A blank log entry.
ghost use Rattle.std.specs.Prelude.{◌≡◌};

use crate::record::Entry;
use items::ItemKind;

impl<I: ItemKind> Entry<I> {
    // Room in a log: rank 0, worker 0 and the blank item.
    pub fn blank() -> Entry<I>
        ensures rank { result.rank ≡ 0 }
        ensures worker { result.worker ≡ 0 }
        ensures item { result.item ≡ I.ItemKind.blank }
    {
        Entry {
            rank: 0,
            worker: 0,
            item: I::blank(),
        }
    }
}
