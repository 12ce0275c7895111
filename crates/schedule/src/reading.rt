ghost use Rattle.std.specs.Prelude.{◌≡◌, ◌+◌, ◌^◌, ◌≤◌, ℕ, List, length, ◌∷◌, Some, None, Ok, Err, IfOk, OnOk};
ghost use Rattle.std.specs.Fn.{FnOnceReturnsAt};
ghost use Rattle.text.specs.Split.{lines_of};
ghost use Rattle.stages.specs.declared.stage.Stage.TheVariants.{Cells};
ghost use Rattle.stages.specs.Stages.{bad_shape, shape_of};
ghost use Rattle.schedule.specs.Accounts.{bad_next, bad_line, at_head, of_kind};
ghost use Rattle.schedule.specs.Ranges.{InRange};

use stages::chooser_line::read_chooser;
use stages::head_line::{HeadLine, read_head};
use stages::stage::{Reader, Stage, shape_of};
use terms::refusals::{BadField, BadLine, Cause};
use text::read_line;

// What is left of a schedule: the number of the next line, which is told of a bad one and is no length of the text, the text
// from this line on, and the reader that takes the lines.
#[derive(Drop)]
pub(crate) struct Unread<'a> {
    pub number: usize,
    pub text: &'a [u8],
    pub reader: Reader,
    // A line has a byte at least, so that the number of each fits.
    ghost lines_fit: { number + length text.now ≤ 2 ^ 63 },
}

impl<'a> Unread<'a> {
    ghost use Rattle.schedule.specs.Reading.{MovedOn, ReadsWanted};

    // Takes the next line; refused where the line is missing, or where the reader does not take it.
    pub(crate) fn next_line(&mut self) -> Result<&'a [u8], BadLine>
        ensures { elim result [ Ok line ↦ (lines_of self.old.text.now ≡ line.now ∷ lines_of self.new.text.now) × (bad_shape self.old.reader.stage self.old.reader.width (shape_of line.now) ≡ None) × (MovedOn self.old self.new) | Err bad ↦ bad_next self.old.number self.old.reader.stage self.old.reader.width (lines_of self.old.text.now) ≡ Some bad ] }
    {
        let number = self.number;
        if self.text.is_empty() {
            return Err(Cause::WrongLetter.in_field(1).in_line(number));
        }
        let (line, rest) = read_line(self.text);
        self.reader
            .take(shape_of(line))
            .map_err(|at| at.in_line(number))?;
        self.number += 1;
        self.text = rest;
        Ok(line)
    }

    // Takes the next line, and reads it by a reader of its fields.
    pub(crate) fn read_next<T, F: FnOnce(&[u8]) -> Result<T, BadField>>(
        &mut self,
        read: F,
    ) -> Result<T, BadLine>
        requires { F.IsAlwaysCallable read }
        ensures wanted { ReadsWanted (FnOnceReturnsAt F.FnOnce read) self.old result self.new }
        ensures given { IfOk result (λ value. (line : List ℕ) × FnOnceReturnsAt F.FnOnce read line (Ok value)) }
        ensures moved { OnOk result (MovedOn self.old self.new) }
    {
        let number = self.number;
        let line = self.next_line()?;
        read(line).map_err(|at| at.in_line(number))
    }
}

// What the first two lines say, and what is left after them, with the reader at the first cell.
#[derive(Drop)]
pub(crate) struct Opening<'a> {
    pub head: HeadLine,
    pub unread: Unread<'a>,
    ghost in_range: { InRange head },
    ghost at_cells: { unread.reader ≡ record { stage = Cells; left = head.cells; width = 0 } },
    ghost third_line: { unread.number ≡ 3 },
}

// Reads a schedule's first two lines.
pub(crate) fn read_opening<'a>(text: &'a [u8]) -> Result<Opening<'a>, BadLine>
    ensures { elim result [ Ok o ↦ at_head (lines_of text.now) ≡ of_kind o.head.kind o.head.cells (lines_of o.unread.text.now) | Err bad ↦ at_head (lines_of text.now) ≡ bad_line bad ] }
{
    let mut unread = Unread {
        number: 1,
        text,
        reader: Reader {
            stage: Stage::Head,
            left: 0,
            width: 0,
        },
    };
    let head = unread.read_next(read_head)?;
    unread.reader.left = head.cells as usize;
    // No call asks the chooser for a place yet, so that it is let go.
    unread.read_next(|line| read_chooser(line, &mut [0; 256]).map(|_| ()))?;
    Ok(Opening { head, unread })
}
