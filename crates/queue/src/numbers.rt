// Tests of the numbers that a store keeps.
ghost use Rattle.std.specs.Prelude.{◌≡◌};
ghost use Rattle.protocol.specs.Tests.{used, is_rank, covers, ended_by, is_open};

// The rank of a used cell, or an end mark that is set.
pub(crate) fn is_used(number: i64) -> bool
    ensures { result ≡ used number }
{
    number >= 0
}

pub(crate) fn is_rank(number: i64, rank: u64) -> bool
    ensures { result ≡ is_rank number rank }
{
    i64::try_from(rank) == Ok(number)
}

// A gap that is at least the rank.
pub(crate) fn covers_rank(gap: i64, rank: u64) -> bool
    ensures { result ≡ covers gap rank }
{
    i64::try_from(rank).is_ok_and(|rank| rank <= gap)
}

// An end mark that is set, and the rank is at least it.
pub(crate) fn is_ended(mark: i64, rank: u64) -> bool
    ensures { result ≡ ended_by mark rank }
{
    u64::try_from(mark).is_ok_and(|mark| mark <= rank)
}

// The end mark of an open queue: a mark below -1 is neither open nor an end.
pub(crate) fn is_open(mark: i64) -> bool
    ensures { result ≡ is_open mark }
{
    mark == -1
}
