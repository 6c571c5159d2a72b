// What every arrangement promises: a place for each cell, and a way back.
ghost use Rattle.std.specs.Prelude.{◌≡◌, ℕ, ◌<◌, Bool, true};
ghost use Rattle.arrangements.specs.Places.{in_range};

pub trait Arrangement: Copy {
    // The numbers of cells that it fits.
    ghost fits: { Self → ℕ → Bool };

    // The place of a cell: of n cells, that of cell i.
    ghost place: { Self → ℕ → ℕ → ℕ };

    // The cell at a place: of n cells, the one at place p.
    ghost cell: { Self → ℕ → ℕ → ℕ };

    fn fits(self, n: usize) -> bool
        ensures { result ≡ fits self n };

    // None where n doesn't fit or there is no cell i.
    fn place(self, n: usize, i: usize) -> Option<usize>
        ensures { result ≡ in_range (fits self n) n i (place self n i) };

    // None where n doesn't fit or there is no place p.
    fn way_back(self, n: usize, p: usize) -> Option<usize>
        ensures { result ≡ in_range (fits self n) n p (cell self n p) };

    ghost within: { (a : Self) (n i : ℕ) → fits a n ≡ true → i < n → place a n i < n };

    ghost returning: { (a : Self) (n i : ℕ) → fits a n ≡ true → i < n → cell a n (place a n i) ≡ i };
}
