ghost use Rattle.std.specs.Prelude.{◌≡◌, ◌*◌, ◌^◌, ◌<◌, ◌≤◌, [], ◌∷◌, length};
ghost use Rattle.std.specs.Mem.{type_size};
ghost use Rattle.text.specs.Split.{lines_of};
ghost use Rattle.rules.specs.Contents.{contents_of, Fits};
ghost use Rattle.rules.specs.Heads.{dimensions_of};
ghost use Rattle.output.specs.Lent.{LinesWritten};
ghost use Rattle.stages.specs.declared.stage.Stage.TheVariants.{Cells};
ghost use Rattle.schedule.specs.Accounts.{at_cells, of_kind};
ghost use Rattle.schedule.specs.Ranges.{InRange};

use crate::making::make_register;
use crate::reading::{Opening, Unread};
use output::paper::Paper;
use rules::sizes::Sizes;
use rules::tables::Tables;
use stages::head_line::{HeadLine, KindName};
use terms::numbers::{CrewNumber, JobNumber, Place};
use terms::records::{Ending, Entry, JobRecord};
use terms::refusals::Refusal;
use values::kinds::Kind;
use values::records::{Card, Dial};

// Makes a register from its lines, and prints its cells; or prints the bad line.
fn print_made<K: Kind>(
    sizes: Sizes,
    t: &mut Tables<'_, K>,
    unread: &mut Unread<'_>,
    paper: &mut Paper<'_>,
) -> Result<(), Refusal>
    requires tables_fit { Fits {V = K} (dimensions_of sizes) (contents_of K t.old) }
    requires at_cells { unread.old.reader ≡ record { stage = Cells; left = sizes.cells; width = K.form.width } }
    requires third_line { unread.old.number ≡ 3 }
    ensures { LinesWritten (at_cells K.form sizes.cells 3 [] (lines_of unread.old.text.now)) paper.old result paper.new }
{
    match make_register(sizes, t, unread) {
        Ok(_) => paper.write_values(t.values),
        Err(bad) => paper.write_refusal(Refusal::BadLine(bad)),
    }
}

// The sizes that a head line names; it keeps their ranges.
fn sizes_of(head: HeadLine) -> Sizes
    requires { InRange head }
    ensures { (result.cells ≡ head.cells) × (result.crews ≡ head.crews) × (result.entries ≡ head.entries) }
{
    Sizes::new(head.cells, head.crews, head.entries).unwrap()
}

const NO_ENTRY: Entry = Entry {
    job: JobNumber(0),
    crew: CrewNumber(0),
    place: Place(0),
    ending: Ending::Committed,
};

// The front of each table, as long as a register of these sizes wants it.
fn cut<K>(memory: Tables<'_, K>, sizes: Sizes) -> Tables<'_, K>
    requires smaller { (sizes.cells ≤ 64) × (sizes.crews ≤ 8) × (sizes.entries ≤ 256) }
    requires largest { Fits {V = K} (record { cells = 64; crews = 8; entries = 256 }) (contents_of K memory) }
    ensures { Fits {V = K} (dimensions_of sizes) (contents_of K result) }
{
    let rows = sizes.crews * sizes.cells;
    let Tables {
        values,
        written,
        read,
        jobs,
        own,
        flags,
        book,
    } = memory;
    Tables {
        values: &mut values[0..sizes.cells],
        written: &mut written[0..sizes.cells],
        read: &mut read[0..sizes.cells],
        jobs: &mut jobs[0..sizes.crews],
        own: &mut own[0..rows],
        flags: &mut flags[0..rows],
        book: &mut book[0..sizes.entries],
    }
}

// Lays out the tables for the largest register of a schedule, 8 crews and 256 entries over 64 cells, takes the front of
// each as long as this register wants it, and prints what its lines make of it.
fn print_kind<K: Kind>(opening: Opening<'_>, paper: &mut Paper<'_>) -> Result<(), Refusal>
    requires { 512 * type_size K.row < 2 ^ 63 }
    ensures { LinesWritten (at_cells K.form opening.entry.head.cells 3 [] (lines_of opening.entry.unread.text.now)) paper.old result paper.new }
{
    let sizes = sizes_of(opening.head);
    let mut values = [K::blank(); 64];
    let mut written = [0; 64];
    let mut read = [0; 64];
    let mut jobs = [JobRecord::closed(); 8];
    let mut own = [K::blank(); 512];
    let mut flags = [0; 512];
    let mut book = [NO_ENTRY; 256];
    let memory = Tables {
        values: &mut values,
        written: &mut written,
        read: &mut read,
        jobs: &mut jobs,
        own: &mut own,
        flags: &mut flags,
        book: &mut book,
    };
    let mut t = cut(memory, sizes);
    let mut unread = opening.unread;
    unread.reader.width = K::count();
    print_made(sizes, &mut t, &mut unread, paper)
}

// Prints the account of a schedule whose first two lines were read.
pub(crate) fn print_opened(opening: Opening<'_>, paper: &mut Paper<'_>) -> Result<(), Refusal>
    ensures { LinesWritten (of_kind opening.entry.head.kind opening.entry.head.cells (lines_of opening.entry.unread.text.now)) paper.old result paper.new }
{
    match opening.head.kind {
        KindName::Card => print_kind::<Card>(opening, paper),
        KindName::Dial => print_kind::<Dial>(opening, paper),
    }
}
