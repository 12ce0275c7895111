ghost use Rattle.std.specs.Prelude.{◌≡◌, ◌+◌, ◌*◌, ◌<◌, ◌≤◌};
ghost use Rattle.rules.specs.Contents.{closed_record};
ghost use Rattle.rules.specs.Tables.{at, row as row_of, spot as spot_of};
ghost use Rattle.rules.specs.Registers.{is_open};

use crate::numbered::{Cell, Crew};
use rules::sizes::Sizes;
use rules::tables::Tables;
use terms::records::{JobRecord, Standing};

// The record is of a crew that has a job open.
pub fn is_open(standing: Standing) -> bool
    ensures { result ≡ is_open standing }
{
    standing == Standing::Open
}

// The job record of a crew; past the table's end it counts as closed.
pub fn record_of<V>(t: &Tables<'_, V>, crew: Crew) -> JobRecord
    ensures { result ≡ at t.now.jobs.now crew.number closed_record }
{
    t.jobs
        .get(crew.number - 1)
        .copied()
        .unwrap_or(JobRecord::closed())
}

// Where the row of a crew begins in a table of crews and cells.
pub fn row(sizes: Sizes, crew: Crew) -> usize
    ensures is { result ≡ row_of sizes.cells crew.number }
    ensures within { crew.number ≤ sizes.crews → result + sizes.cells ≤ sizes.crews * sizes.cells }
{
    (crew.number - 1) * sizes.cells
}

// Where the row of a crew has a cell.
pub fn spot(sizes: Sizes, crew: Crew, cell: Cell) -> usize
    ensures is { result ≡ spot_of sizes.cells crew.number cell.number }
    ensures within { crew.number ≤ sizes.crews → cell.number ≤ sizes.cells → result < sizes.crews * sizes.cells }
{
    row(sizes, crew) + (cell.number - 1)
}
