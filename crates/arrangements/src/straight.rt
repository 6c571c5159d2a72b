// Each cell at the place of its own number.
ghost use Rattle.arrangements.specs.Places.{every_size, same_number};
ghost use Rattle.std.specs.Prelude.{refl};

use crate::arrangement::Arrangement;

#[derive(Clone, Copy)]
pub struct Straight;

impl Arrangement for Straight {
    ghost fits = { λ _. every_size };

    ghost place = { λ _. same_number };

    ghost cell = { λ _. same_number };

    ghost within = { λ a n i fits below. below };

    ghost returning = { λ a n i fits below. refl };

    fn fits(self, _n: usize) -> bool {
        true
    }

    fn place(self, n: usize, i: usize) -> Option<usize> {
        (i < n).then_some(i)
    }

    fn way_back(self, n: usize, p: usize) -> Option<usize> {
        (p < n).then_some(p)
    }
}
