ghost use Rattle.std.specs.Prelude.{◌≡◌};
ghost use Rattle.rules.specs.JobCalls.{commit_low};

use crate::cells::cells_bound;
use crate::readers::readers_bound;
use admission::numbered::Crew;
use admission::view::View;

// What the place of a crew's commit must lie above: its own low, and what the cells that it has written and the other
// jobs that have read them want.
pub fn commit_low<V>(view: &View<'_, '_, V>, crew: Crew) -> u128
    ensures { result ≡ commit_low view.now crew.number }
{
    let low = u128::from(view.record_of(crew).low.0);
    let cells = u128::from(cells_bound(view, crew));
    low.max(cells.max(readers_bound(view, crew)))
}
