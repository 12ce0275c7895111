ghost use Rattle.std.specs.Prelude.{◌≡◌, ◌-◌, ◌<◌, ◌≤◌, length};
ghost use Rattle.std.specs.List.{AllWithin, HoldsAt};
ghost use Rattle.rules.specs.Performing.{Inserted};

use terms::numbers::Place;
use terms::records::Entry;

// How many entries of the day book stay before one at the place: those up to the last that is not of a higher place. It is
// looked for from the end, near which most places go, and one by one, since those after it are moved one by one too.
fn entries_before(day_book: &[Entry], place: Place) -> usize
    ensures within { result ≤ length day_book.now }
    ensures above { AllWithin (λ entry. place.0 < entry.place.0) day_book.now result (length day_book.now) }
    ensures not_above { 0 < result → HoldsAt (λ entry. entry.place.0 ≤ place.0) day_book.now (result - 1) }
{
    day_book
        .iter()
        .rposition(|entry| entry.place <= place)
        .map_or(0, |last| last + 1)
}

// Puts an entry into the day book, which is the first `ended` entries of the book: after those of lower and before those
// of higher places. A book without room is left as it is.
pub fn insert(book: &mut [Entry], ended: usize, added: Entry)
    ensures full { length book.old ≤ ended → book.new ≡ book.old }
    ensures entered { ended < length book.old → Inserted ended added book.old book.new }
{
    if book.len() <= ended {
        return;
    }
    let spot = entries_before(&book[..ended], added.place);
    book.copy_within(spot..ended, spot + 1);
    book[spot] = added;
}
