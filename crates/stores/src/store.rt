// What every store promises.
ghost use Rattle.std.specs.Prelude.{◌≡◌, ℕ, ◌+◌, ◌^◌, ◌≤◌};
ghost use Rattle.stores.specs.Model.{Contents, size, cell_of, with_item, with_rank, with_gap, with_end, with_head, cleared};
ghost use Rattle.stores.specs.Calls.{no_cell, no_end, no_rank, no_clear, Answered, Done};

use crate::refusal::Refusal;
use items::ItemKind;

// A step of the queue reads or writes one part of a cell, so each part has a call of its own. That a question leaves the
// store alone (`same`) is what `&` says, and stays for whoever reads a contract alone.
pub trait Store {
    type Item: ItemKind;

    type Fault: Refusal;

    // What the store holds: its head, its end mark and its cells.
    ghost model: { Self → Contents Self.Item };

    ghost bound: { (s : Self) → (model s).head ≤ 2 ^ 40 };

    // The memory under the store is the image of the model; `image` says that it always is.
    ghost imaged: { Self → Type 0 };

    ghost image: { (s : Self) → imaged s };

    // The ghost name of the memory that is lent to the store: whoever lent it knows what it holds afterwards. That a call
    // keeps it is said by each, since an equation between before and after is no invariant of a type.
    ghost lender: { Self → ℕ };

    fn cells(&self) -> usize
        ensures value { result ≡ size (model self.now) }
        ensures same { self.exit.now ≡ self.entry.now };

    fn head(&self) -> u64
        ensures value { result ≡ (model self.now).head }
        ensures same { self.exit.now ≡ self.entry.now };

    fn end_mark(&self) -> i64
        ensures value { result ≡ (model self.now).end }
        ensures same { self.exit.now ≡ self.entry.now };

    fn item(&self, i: usize) -> Result<Self::Item, Self::Fault>
        ensures value { Answered Self.Fault.Refusal.reason (no_cell Self.Fault.Refusal.layer (model self.now) i) (cell_of Self.Item.ItemKind.blank (model self.now) i).item result }
        ensures same { self.exit.now ≡ self.entry.now };

    fn rank(&self, i: usize) -> Result<i64, Self::Fault>
        ensures value { Answered Self.Fault.Refusal.reason (no_cell Self.Fault.Refusal.layer (model self.now) i) (cell_of Self.Item.ItemKind.blank (model self.now) i).rank result }
        ensures same { self.exit.now ≡ self.entry.now };

    fn gap(&self, i: usize) -> Result<i64, Self::Fault>
        ensures value { Answered Self.Fault.Refusal.reason (no_cell Self.Fault.Refusal.layer (model self.now) i) (cell_of Self.Item.ItemKind.blank (model self.now) i).gap result }
        ensures same { self.exit.now ≡ self.entry.now };

    fn put_item(&mut self, i: usize, item: Self::Item) -> Result<(), Self::Fault>
        ensures done { Done Self.Fault.Refusal.reason (no_cell Self.Fault.Refusal.layer (model self.old) i) tt model (with_item Self.Item.ItemKind.blank (model self.old) i item) self.old self.new result }
        ensures lender { lender self.new ≡ lender self.old };

    fn put_rank(&mut self, i: usize, rank: i64) -> Result<(), Self::Fault>
        ensures done { Done Self.Fault.Refusal.reason (no_cell Self.Fault.Refusal.layer (model self.old) i) tt model (with_rank Self.Item.ItemKind.blank (model self.old) i rank) self.old self.new result }
        ensures lender { lender self.new ≡ lender self.old };

    fn put_gap(&mut self, i: usize, gap: i64) -> Result<(), Self::Fault>
        ensures done { Done Self.Fault.Refusal.reason (no_cell Self.Fault.Refusal.layer (model self.old) i) tt model (with_gap Self.Item.ItemKind.blank (model self.old) i gap) self.old self.new result }
        ensures lender { lender self.new ≡ lender self.old };

    fn set_end(&mut self, mark: i64) -> Result<(), Self::Fault>
        ensures done { Done Self.Fault.Refusal.reason (no_end Self.Fault.Refusal.layer (model self.old)) tt model (with_end (model self.old) mark) self.old self.new result }
        ensures lender { lender self.new ≡ lender self.old };

    // Answers the head, and raises it by one.
    fn next_rank(&mut self) -> Result<u64, Self::Fault>
        ensures done { Done Self.Fault.Refusal.reason (no_rank Self.Fault.Refusal.layer (model self.old)) (model self.old).head model (with_head (model self.old) ((model self.old).head + 1)) self.old self.new result }
        ensures lender { lender self.new ≡ lender self.old };

    fn clear(&mut self, start: u64) -> Result<(), Self::Fault>
        ensures done { Done Self.Fault.Refusal.reason (no_clear Self.Fault.Refusal.layer (model self.old) start) tt model (cleared Self.Item.ItemKind.blank (size (model self.old)) start) self.old self.new result }
        ensures lender { lender self.new ≡ lender self.old };
}
