ghost use Rattle.std.specs.Prelude.{◌≡◌, [], Ok, Err};
ghost use Rattle.text.specs.Split.{lines_of};
ghost use Rattle.rules.specs.Contents.{contents_of, Same};
ghost use Rattle.rules.specs.Heads.{dimensions_of, filling_of};
ghost use Rattle.schedule.specs.Accounts.{at_cells, bad_line, read_cell};
ghost use Rattle.schedule.specs.Filling.{FilledTo};

use crate::reading::Unread;
use register::making::fill;
use rules::head::Filling;
use rules::tables::Tables;
use terms::refusals::{BadField, BadLine};
use text::read_field;
use values::kinds::Kind;
use values::reading::read_value;

// Reads a cell's value, which stands behind the line's letter.
fn read_cell<K: Kind>(line: &[u8]) -> Result<K, BadField>
    ensures { result ≡ read_cell K.form line.now }
{
    let (_, fields) = read_field(line);
    read_value(fields, 2)
}

// Fills all cells from the lines of a schedule.
pub(crate) fn fill_cells<K: Kind>(
    head: &mut Filling,
    t: &mut Tables<'_, K>,
    unread: &mut Unread<'_>,
) -> Result<(), BadLine>
    requires { FilledTo K.form (lines_of unread.old.text.now) 0 (filling_of head.old) (contents_of K t.old) unread.old }
    ensures same { Same K t.new t.old }
    ensures sizes { dimensions_of head.new.sizes ≡ dimensions_of head.old.sizes }
    ensures read { elim result [ Ok _ ↦ FilledTo K.form (lines_of unread.old.text.now) head.old.sizes.cells (filling_of head.new) (contents_of K t.new) unread.new | Err bad ↦ at_cells K.form head.old.sizes.cells 3 [] (lines_of unread.old.text.now) ≡ bad_line bad ] }
{
    for _ in 0..head.sizes.cells {
        // A closure, since the check does not take a generic function by its name here.
        let value = unread.read_next(|line| read_cell(line))?;
        fill(head, t, value).unwrap();
    }
    Ok(())
}
