ghost use Rattle.std.specs.Prelude.{◌≡◌, ◌<◌};
ghost use Rattle.rules.specs.Limits.{most_crews};
ghost use Rattle.rules.specs.Tables.{most};
ghost use Rattle.rules.specs.JobCalls.{touches as Touches, other_reader};
ghost use Rattle.bounds.specs.Bounds.{reader_bound};

use admission::looking::is_open;
use admission::numbered::Crew;
use admission::view::View;

// A view and the crews that it is asked about are parameters: a struct of them would be made for each call.

// The other crew's job has read first-hand a cell that the crew's job has written.
fn touches<V>(view: &View<'_, '_, V>, crew: Crew, other: Crew) -> bool
    ensures { result ≡ Touches view.now crew.number other.number }
{
    (0..view.sizes().cells).any(|i| view.has_read(other, i) && view.has_written(crew, i))
}

// The other crew is another one, has a job open, and that has read first-hand what the crew's job has written.
pub fn is_other_reader<V>(view: &View<'_, '_, V>, crew: Crew, other: Crew) -> bool
    ensures { result ≡ other_reader view.now crew.number other.number }
{
    crew.number != other.number
        && is_open(view.record_of(other).standing)
        && touches(view, crew, other)
}

// What the other crew's job wants the commit's place to lie above. A damaged low may be the largest number there is, so
// that the bound has more bits.
fn reader_bound<V>(view: &View<'_, '_, V>, crew: Crew, other: Crew) -> u128
    ensures { result ≡ reader_bound view.now crew.number other.number }
{
    if is_other_reader(view, crew, other) {
        u128::from(view.record_of(other).low.0) + 1
    } else {
        0
    }
}

// The largest bound of all other jobs.
pub(crate) fn readers_bound<V>(view: &View<'_, '_, V>, crew: Crew) -> u128
    ensures { result ≡ most (reader_bound view.now crew.number) view.now.head.sizes.crews }
{
    (0..view.sizes().crews)
        .map(
            |i|
                requires { i < most_crews }
            { reader_bound(view, crew, Crew { number: i + 1 }) },
        )
        .max()
        .unwrap_or(0)
}
