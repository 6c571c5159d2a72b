// The cell of a rank.
ghost use Rattle.std.specs.Prelude.{◌≡◌, ◌%◌, ◌<◌};
ghost use Rattle.stores.specs.Model.{size};

use stores::Store;

// A store that has cells has this one, so it refuses no call that names it. That it has some stays a `requires`: a struct
// over the store that carried the fact would need, wherever the store is written, the clause that it still holds it.
pub(crate) fn cell_of<S: Store>(store: &S, rank: u64) -> usize
    requires { 0 < size (S.Store.model store.now) }
    ensures value { result ≡ rank % size (S.Store.model store.now) }
    ensures within { result < size (S.Store.model store.now) }
{
    (rank % store.cells() as u64) as usize
}
