// The promise over whole lives of a queue, for citing.
ghost use Rattle.protocol.specs.Promise.{WholeLife};

// The promise stands for every type of items; this function's contract says so of T, and it does nothing else.
pub fn whole_life<T>(x: T) -> T
    ensures { WholeLife T }
{
    x
}
