ghost use Rattle.std.specs.Prelude.{◌≡◌, ◌+◌, ◌<◌, ◌≤◌};
ghost use Rattle.rules.specs.Limits.{top};

use crate::sizes::Sizes;
use terms::numbers::Place;

// The head of a register that is being filled: no job can be opened on it. It is moved, and cannot be copied.
#[derive(Drop)]
pub struct Filling {
    pub sizes: Sizes,
    pub filled: usize,
    ghost in_cells: { filled ≤ sizes.cells },
}

impl Filling {
    // The head of a register of these sizes in which nothing is filled.
    pub fn new(sizes: Sizes) -> Filling
        ensures { (result.sizes ≡ sizes) × (result.filled ≡ 0) }
    {
        Filling { sizes, filled: 0 }
    }
}

// The head of a started register, with the highest place given so far and the counts of ended and of open jobs:
// no cell can be filled on it. It is moved, and cannot be copied.
#[derive(Drop)]
pub struct Started {
    pub sizes: Sizes,
    pub highest: Place,
    pub ended: usize,
    pub active: usize,
    ghost under_top: { highest.0 < top },
    ghost in_book: { ended + active ≤ sizes.entries },
}
