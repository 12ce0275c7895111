ghost use Rattle.std.specs.Prelude.{◌≡◌, ℕ, ◌<◌, ◌≤◌, true, false, Ok, Err};
ghost use Rattle.terms.specs.declared.refusals.Refusal.TheVariants.{BadSize};
ghost use Rattle.choosers.specs.Stride.{stride_meaning, most_step, step_in_range};
ghost use Rattle.choosers.specs.Lawful.{stride_lawful};

use crate::chooser::{Chooser, no_room};
use terms::numbers::Place;
use terms::refusals::Refusal;

// A chooser that gives the place one step above the low bound, and the middle where that is too far.
#[derive(Drop)]
pub struct Stride {
    step: u64,
    ghost positive: { 1 ≤ step },
    ghost in_range: { step ≤ most_step },
}

impl Stride {
    // A stride of 1 to 1,000,000; any other is a bad size.
    pub fn new(step: u64) -> Result<Stride, Refusal>
        ensures { elim result [ Ok s ↦ (step_in_range step ≡ true) × (s.step ≡ step) | Err e ↦ (step_in_range step ≡ false) × (e ≡ BadSize) ] }
    {
        if !(1..=1_000_000).contains(&step) {
            return Err(Refusal::BadSize);
        }
        Ok(Stride { step })
    }
}

impl Chooser for Stride {
    ghost meaning = { λ s. stride_meaning s.step };

    ghost lawful = { λ s. stride_lawful s.step s.positive };

    fn choose(&mut self, low: Place, high: Place) -> Place {
        if no_room(low, high) {
            return low;
        }
        let width = high.0 - low.0;
        if self.step < width {
            Place(low.0 + self.step)
        } else {
            Place(low.0 + width / 2)
        }
    }
}
