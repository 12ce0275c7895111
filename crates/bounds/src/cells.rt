ghost use Rattle.std.specs.Prelude.{◌≡◌, ◌+◌};
ghost use Rattle.rules.specs.Tables.{most};
ghost use Rattle.bounds.specs.Bounds.{cell_bound};

use admission::numbered::Crew;
use admission::view::View;

// What the cell `i`, counted from 0, wants the commit's place to lie above: its written and its read place, where the
// crew's job has written it.
fn cell_bound<V>(view: &View<'_, '_, V>, crew: Crew, i: usize) -> u64
    ensures { result ≡ cell_bound view.now crew.number (i + 1) }
{
    if view.has_written(crew, i) {
        let (written, read) = view.places(i);
        written.max(read)
    } else {
        // as the rules have it: above 0 is above nothing
        0
    }
}

// The largest bound of all cells.
pub(crate) fn cells_bound<V>(view: &View<'_, '_, V>, crew: Crew) -> u64
    ensures { result ≡ most (cell_bound view.now crew.number) view.now.head.sizes.cells }
{
    (0..view.sizes().cells)
        .map(|i| cell_bound(view, crew, i))
        .max()
        .unwrap_or(0)
}
