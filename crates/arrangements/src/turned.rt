// The cells in 16 rows, placed column by column: neighbours lie 16 places apart.
ghost use Rattle.arrangements.specs.Places.{turned_size, turned_place, turned_cell};
ghost use Rattle.arrangements.specs.Turning.{turned_below, turned_rows, turned_back};

use crate::arrangement::Arrangement;

#[derive(Clone, Copy)]
pub struct Turned;

impl Arrangement for Turned {
    ghost fits = { λ _. turned_size };

    ghost place = { λ _. turned_place 16 };

    ghost cell = { λ _. turned_cell 16 };

    ghost within = { λ a n i fits below. turned_below 16 n i (turned_rows n fits) below };

    ghost returning = { λ a n i fits below. turned_back 16 n i (turned_rows n fits) below };

    fn fits(self, n: usize) -> bool {
        (16..=65_536).contains(&n) && n.is_power_of_two()
    }

    fn place(self, n: usize, i: usize) -> Option<usize> {
        if !self.fits(n) || i >= n {
            return None;
        }
        let c = n / 16;
        Some(i % c * 16 + i / c)
    }

    fn way_back(self, n: usize, p: usize) -> Option<usize> {
        if !self.fits(n) || p >= n {
            return None;
        }
        let c = n / 16;
        Some(p % 16 * c + p / 16)
    }
}
