ghost use Rattle.std.specs.Prelude.{◌≡◌, ◌≢◌, Ok, Err};
ghost use Rattle.std.specs.Result.{result_err};
ghost use Rattle.terms.specs.declared.refusals.Refusal.TheVariants.{WrongTable};
ghost use Rattle.rules.specs.Heads.{dimensions_of};
ghost use Rattle.rules.specs.Contents.{contents_of, Fits};
ghost use Rattle.rules.specs.Refusing.{first_refusal, size_tests};

use rules::sizes::Sizes;
use rules::tables::Tables;
use terms::refusals::{Refusal, TableName};

// The table of this name has the wanted length, or the refusal names it.
fn fits(length: usize, wanted: usize, name: TableName) -> Result<(), Refusal>
    ensures { elim result [ Ok _ ↦ length ≡ wanted | Err e ↦ (length ≢ wanted) × (e ≡ WrongTable name) ] }
{
    if length != wanted {
        return Err(Refusal::WrongTable(name));
    }
    Ok(())
}

// The tables have the head's lengths, or the refusal names the first whose length is not the head's.
pub fn wrong_table<V>(sizes: Sizes, t: &Tables<'_, V>) -> Result<(), Refusal>
    ensures answer { result_err result ≡ first_refusal (size_tests {V = V} (dimensions_of sizes) (contents_of V t.now)) }
    ensures fits { elim result [ Ok _ ↦ Fits {V = V} (dimensions_of sizes) (contents_of V t.now) | Err _ ↦ Unit {0} ] }
{
    let all = sizes.crews * sizes.cells;
    fits(t.values.len(), sizes.cells, TableName::Values)?;
    fits(t.written.len(), sizes.cells, TableName::WrittenPlaces)?;
    fits(t.read.len(), sizes.cells, TableName::ReadPlaces)?;
    fits(t.jobs.len(), sizes.crews, TableName::JobRecords)?;
    fits(t.own.len(), all, TableName::OwnValues)?;
    fits(t.flags.len(), all, TableName::Flags)?;
    fits(t.book.len(), sizes.entries, TableName::Book)
}
