// A store that is arranged over another.
ghost use Rattle.std.specs.Prelude.{◌≡◌, IfErr};
ghost use Rattle.stores.specs.Model.{fresh_cell};
ghost use Rattle.stores.specs.Calls.{no_rank, no_clear};
ghost use Rattle.arrangements.specs.Faults.{arrangement_layer, arrangement_reason, Carries};
ghost use Rattle.arrangements.specs.Arranged.{arranged, arranged_model, RankTaken, Cleared, CellsAbove, SomeAbove, PlaceBelow};

use crate::arrangement::Arrangement;
use crate::fault::ArrangementFault;
use stores::{Refusal, Store};

#[derive(Drop)]
pub struct ArrangedStore<S, A> {
    below: S,
    arrangement: A,
}

impl<S: Store, A: Arrangement> ArrangedStore<S, A> {
    pub fn new(below: S, arrangement: A) -> ArrangedStore<S, A>
        ensures model { arranged_model S.Item.ItemKind.blank A.Arrangement.fits A.Arrangement.place S.Store.model result ≡ arranged S.Item.ItemKind.blank (A.Arrangement.fits arrangement) (A.Arrangement.place arrangement) (S.Store.model below) }
        ensures lender { S.Store.lender result.below ≡ S.Store.lender below }
    {
        ArrangedStore { below, arrangement }
    }

    // The number of cells: none where the arrangement doesn't fit.
    fn fitting_cells(&self) -> usize
        ensures { CellsAbove (fresh_cell S.Item.ItemKind.blank) (A.Arrangement.fits self.now.arrangement) (A.Arrangement.place self.now.arrangement) (S.Store.model self.now.below).cells result }
    {
        let n = self.below.cells();
        if self.arrangement.fits(n) { n } else { 0 }
    }

    // That number, where there are cells.
    fn some_cells(&self) -> Result<usize, ArrangementFault<S::Fault>>
        ensures { SomeAbove (fresh_cell S.Item.ItemKind.blank) (A.Arrangement.fits self.now.arrangement) (A.Arrangement.place self.now.arrangement) (S.Store.model self.now.below).cells result }
    {
        match self.fitting_cells() {
            0 => Err(ArrangementFault::NoCells),
            n => Ok(n),
        }
    }

    // The place below of cell `i`.
    fn place(&self, i: usize) -> Result<usize, ArrangementFault<S::Fault>>
        ensures { PlaceBelow (fresh_cell S.Item.ItemKind.blank) (A.Arrangement.fits self.now.arrangement) (A.Arrangement.place self.now.arrangement) (S.Store.model self.now.below).cells i result }
    {
        self.arrangement
            .place(self.fitting_cells(), i)
            .ok_or(ArrangementFault::NoSuchCell(i))
    }
}

impl<S: Store, A: Arrangement> Store for ArrangedStore<S, A> {
    type Item = S::Item;

    type Fault = ArrangementFault<S::Fault>;

    ghost model = { arranged_model S.Item.ItemKind.blank A.Arrangement.fits A.Arrangement.place S.Store.model };

    ghost bound = { λ s. S.Store.bound s.below };

    ghost imaged = { λ s. S.Store.imaged s.below };

    ghost image = { λ s. S.Store.image s.below };

    ghost lender = { λ s. S.Store.lender s.below };

    fn cells(&self) -> usize {
        self.fitting_cells()
    }

    fn head(&self) -> u64 {
        self.below.head()
    }

    fn end_mark(&self) -> i64 {
        self.below.end_mark()
    }

    // The calls for one cell are hinted into their callers: as functions of their own the puts made a round of puts and
    // reads over block memory a quarter longer.
    #[inline]
    fn item(&self, i: usize) -> Result<S::Item, ArrangementFault<S::Fault>> {
        let p = self.place(i)?;
        self.below.item(p).map_err(ArrangementFault::Below)
    }

    #[inline]
    fn rank(&self, i: usize) -> Result<i64, ArrangementFault<S::Fault>> {
        let p = self.place(i)?;
        self.below.rank(p).map_err(ArrangementFault::Below)
    }

    #[inline]
    fn gap(&self, i: usize) -> Result<i64, ArrangementFault<S::Fault>> {
        let p = self.place(i)?;
        self.below.gap(p).map_err(ArrangementFault::Below)
    }

    #[inline]
    fn put_item(&mut self, i: usize, item: S::Item) -> Result<(), ArrangementFault<S::Fault>> {
        let p = self.place(i)?;
        self.below
            .put_item(p, item)
            .map_err(ArrangementFault::Below)
    }

    #[inline]
    fn put_rank(&mut self, i: usize, rank: i64) -> Result<(), ArrangementFault<S::Fault>> {
        let p = self.place(i)?;
        self.below
            .put_rank(p, rank)
            .map_err(ArrangementFault::Below)
    }

    #[inline]
    fn put_gap(&mut self, i: usize, gap: i64) -> Result<(), ArrangementFault<S::Fault>> {
        let p = self.place(i)?;
        self.below.put_gap(p, gap).map_err(ArrangementFault::Below)
    }

    fn set_end(&mut self, mark: i64) -> Result<(), ArrangementFault<S::Fault>> {
        self.some_cells()?;
        self.below.set_end(mark).map_err(ArrangementFault::Below)
    }

    // A refusal of the store below is carried whole.
    fn next_rank(&mut self) -> Result<u64, ArrangementFault<S::Fault>>
        ensures done { RankTaken (arrangement_reason S.Fault.Refusal.reason) arrangement_layer (arranged_model S.Item.ItemKind.blank A.Arrangement.fits A.Arrangement.place S.Store.model) self.old self.new result }
        ensures lender { S.Store.lender self.new.below ≡ S.Store.lender self.old.below }
        ensures carried { IfErr result (Carries S.Fault.Refusal.reason (no_rank S.Fault.Refusal.layer (S.Store.model self.old.below))) }
    {
        self.some_cells()?;
        self.below.next_rank().map_err(ArrangementFault::Below)
    }

    // A refusal of the store below is carried whole.
    fn clear(&mut self, start: u64) -> Result<(), ArrangementFault<S::Fault>>
        ensures done { Cleared (arrangement_reason S.Fault.Refusal.reason) arrangement_layer S.Item.ItemKind.blank (arranged_model S.Item.ItemKind.blank A.Arrangement.fits A.Arrangement.place S.Store.model) start self.old self.new result }
        ensures lender { S.Store.lender self.new.below ≡ S.Store.lender self.old.below }
        ensures carried { IfErr result (Carries S.Fault.Refusal.reason (no_clear S.Fault.Refusal.layer (S.Store.model self.old.below) start)) }
    {
        self.some_cells()?;
        self.below.clear(start).map_err(ArrangementFault::Below)
    }
}
