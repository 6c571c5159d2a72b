// The log's calls.
ghost use Rattle.std.specs.Prelude.{◌≡◌, ◌+◌, ◌<◌, min, length, nat_le, slice_set};
ghost use Rattle.std.specs.Option.{option_map};
ghost use Rattle.protocol.specs.Rules.{emptied_log};
ghost use Rattle.queue.specs.Logs.{log_view, log_lender, kept, first_under};

use crate::log::Log;
use protocol::Entry;

// The first entry under a rank.
pub fn find<I>(entries: &[Entry<I>], rank: u64) -> Option<&Entry<I>>
    ensures { option_map (λ x. x.now) result ≡ first_under rank entries.now }
{
    entries.iter().find(|e| e.rank == rank)
}

impl<'a, I: Copy> Log<'a, I> {
    // An empty log over these entries, which stay as they are.
    pub fn new(entries: &'a mut [Entry<I>]) -> Log<'a, I>
        ensures entries { (log_view result).entries ≡ entries.old }
        ensures count { (log_view result).count ≡ 0 }
        ensures lent { log_lender result ≡ entries.entry.ghost_name }
    {
        Log { entries, count: 0 }
    }

    // The entries that are kept.
    pub fn kept(&self) -> &[Entry<I>]
        ensures { result.now ≡ kept (log_view self.now) }
    {
        &self.entries[..self.count]
    }

    // How many entries are kept.
    pub fn count(&self) -> usize
        ensures value { result ≡ min (log_view self.now).count (length (log_view self.now).entries) }
        ensures same { self.exit.now ≡ self.entry.now }
    {
        self.kept().len()
    }

    // The first of the kept entries under a rank.
    pub fn entry(&self, rank: u64) -> Option<&Entry<I>>
        ensures { option_map (λ x. x.now) result ≡ first_under rank (kept (log_view self.now)) }
    {
        find(self.kept(), rank)
    }

    pub(crate) fn is_full(&self) -> bool
        ensures { result ≡ nat_le (length (log_view self.now).entries) (log_view self.now).count }
    {
        self.count == self.entries.len()
    }

    pub(crate) fn append(&mut self, entry: Entry<I>)
        requires { (log_view self.old).count < length (log_view self.old).entries }
        ensures entries { (log_view self.new).entries ≡ slice_set (log_view self.old).entries (log_view self.old).count entry }
        ensures count { (log_view self.new).count ≡ (log_view self.old).count + 1 }
        ensures lent { log_lender self.new ≡ log_lender self.old }
    {
        self.entries[self.count] = entry;
        self.count += 1;
    }

    // Keeps no entry; the memory stays.
    pub(crate) fn clear(&mut self)
        ensures log { log_view self.new ≡ emptied_log (log_view self.old) }
        ensures lent { log_lender self.new ≡ log_lender self.old }
    {
        self.count = 0;
    }
}
