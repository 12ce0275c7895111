ghost use Rattle.std.specs.Prelude.{◌≡◌};
ghost use Rattle.choosers.specs.Script.{script_meaning, not_used};
ghost use Rattle.choosers.specs.Lawful.{script_lawful};

use crate::chooser::{Chooser, no_room};
use terms::numbers::Place;

// A chooser that gives the numbers of a lent list in turn, each where it lies between the bounds; it keeps those that are left.
#[derive(Clone, Copy)]
pub struct Script<'a> {
    left: &'a [u64],
}

impl<'a> Script<'a> {
    // The script of these numbers, none of them used up.
    pub fn new(numbers: &'a [u64]) -> Script<'a>
        ensures { not_used result ≡ numbers.now }
    {
        Script { left: numbers }
    }
}

impl Chooser for Script<'_> {
    ghost meaning = { λ s. script_meaning (not_used s) };

    ghost lawful = { λ s. script_lawful (not_used s) };

    fn choose(&mut self, low: Place, high: Place) -> Place {
        if no_room(low, high) {
            return low;
        }
        let Some((number, left)) = self.left.split_first() else {
            return Place(low.0 + 1);
        };
        self.left = left;
        let place = Place(*number);
        if low < place && place < high {
            place
        } else {
            Place(low.0 + 1)
        }
    }
}
