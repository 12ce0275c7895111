ghost use Rattle.std.specs.Prelude.{◌≡◌, []};
ghost use Rattle.choosers.specs.Meaning.{Meaning, moved_on, no_room, KeepsLaw};

use terms::numbers::Place;

// A chooser is given a low and a high bound, and gives a place.
// Its meaning is the place that it would give for each pair of bounds, now and after each list of further pairs;
// giving a place moves it on by that one pair. Every chooser keeps the law: its place lies between the bounds where they
// leave room, and where they leave none it is the low bound, and the chooser does not move.
pub trait Chooser {
    ghost meaning: { Self → Meaning };

    ghost lawful: { (s : Self) → KeepsLaw (meaning s) };

    // The bounds are two parameters: a struct would be made of a record's two places at each call.
    fn choose(&mut self, low: Place, high: Place) -> Place
        ensures gave { result.0 ≡ meaning self.old [] low.0 high.0 }
        ensures moved { meaning self.new ≡ moved_on (meaning self.old) low.0 high.0 };
}

// No place lies between the bounds.
pub(crate) fn no_room(low: Place, high: Place) -> bool
    ensures { result ≡ no_room low.0 high.0 }
{
    high.0.saturating_sub(low.0) < 2
}
