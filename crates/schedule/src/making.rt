ghost use Rattle.std.specs.Prelude.{◌≡◌, List, [], map, Ok, Err};
ghost use Rattle.text.specs.Split.{lines_of};
ghost use Rattle.rules.specs.Contents.{contents_of, Fits, Same};
ghost use Rattle.rules.specs.Heads.{dimensions_of};
ghost use Rattle.output.specs.Lines.{value_line};
ghost use Rattle.stages.specs.declared.stage.Stage.TheVariants.{Cells, Calls};
ghost use Rattle.schedule.specs.Accounts.{at_cells, at_calls, bad_line};

use crate::cells::fill_cells;
use crate::reading::Unread;
use register::making::start;
use rules::head::{Filling, Started};
use rules::sizes::Sizes;
use rules::tables::Tables;
use terms::refusals::BadLine;
use values::kinds::Kind;

// Reads the lines of calls. No call is built yet, so that the reader takes no line here.
fn read_calls<K: Kind>(unread: &mut Unread<'_>) -> Result<(), BadLine>
    requires { unread.old.reader.stage ≡ Calls }
    ensures { elim result [ Ok _ ↦ ((values : List K) → at_calls K.form unread.old.number values (lines_of unread.old.text.now) ≡ map (value_line K.form) values) | Err bad ↦ ((values : List K) → at_calls K.form unread.old.number values (lines_of unread.old.text.now) ≡ bad_line bad) ] }
{
    if unread.text.is_empty() {
        return Ok(());
    }
    unread.next_line()?;
    Ok(())
}

// Makes a register from the lines of its cells and calls: fills it, starts it, and makes its calls. The tables stay beside
// what is unread: the one is filled from the other.
pub(crate) fn make_register<K: Kind>(
    sizes: Sizes,
    t: &mut Tables<'_, K>,
    unread: &mut Unread<'_>,
) -> Result<Started, BadLine>
    requires tables_fit { Fits {V = K} (dimensions_of sizes) (contents_of K t.old) }
    requires at_cells { unread.old.reader ≡ record { stage = Cells; left = sizes.cells; width = K.form.width } }
    requires third_line { unread.old.number ≡ 3 }
    ensures same { Same K t.new t.old }
    ensures read { elim result [ Ok _ ↦ at_cells K.form sizes.cells 3 [] (lines_of unread.old.text.now) ≡ map (value_line K.form) t.new.values.now | Err bad ↦ at_cells K.form sizes.cells 3 [] (lines_of unread.old.text.now) ≡ bad_line bad ] }
{
    let mut head = Filling::new(sizes);
    fill_cells(&mut head, t, unread)?;
    let started = start(head, t).unwrap();
    read_calls::<K>(unread)?;
    Ok(started)
}
