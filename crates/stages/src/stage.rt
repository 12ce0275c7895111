ghost use Rattle.std.specs.Prelude.{◌≡◌, Ok, Result as Answered};
ghost use Rattle.terms.specs.declared.refusals.BadField.{BadField as Bad};
ghost use Rattle.stages.specs.declared.stage.Reader.{Reader as Machine};
ghost use Rattle.stages.specs.Stages.{letter_of, shape_of, taken};
ghost use Rattle.text.specs.Numbers.{number_in};
ghost use Rattle.values.specs.Forms.{is_number};

use terms::refusals::{BadField, Cause};
use text::{count_fields, number, read_field};

// Where the reader of a schedule stands: at the head line, at the chooser line, among the cells, or among the calls.
#[derive(Clone, Copy)]
pub enum Stage {
    Head,
    Chooser,
    Cells,
    Calls,
}

// What decides whether a line may stand at a stage: the letters in its first two fields, and how many fields it has.
#[derive(Clone, Copy)]
pub struct Shape {
    pub letter: Option<u8>,
    pub second: Option<u8>,
    pub fields: usize,
}

// The letter in a field: its one byte. A field of any other length has none.
pub fn letter_of(field: &[u8]) -> Option<u8>
    ensures { result ≡ letter_of field.now }
{
    match field {
        [letter] => Some(*letter),
        _ => None,
    }
}

// The number in field `at` of a line; it has no range.
pub(crate) fn read_number(field: &[u8], at: usize) -> Result<u64, BadField>
    ensures { result ≡ is_number at (number_in field.now) (λ n. Ok n) }
{
    number(field).ok_or(Cause::NoNumber.in_field(at))
}

// A line's shape.
pub fn shape_of(line: &[u8]) -> Shape
    ensures { result ≡ shape_of line.now }
{
    let (first, rest) = read_field(line);
    let (second, _) = read_field(rest);
    Shape {
        letter: letter_of(first),
        second: letter_of(second),
        fields: count_fields(line),
    }
}

// The reader of a schedule: its stage, how many cells are still to come, and how many fields a value has.
#[derive(Clone, Copy)]
pub struct Reader {
    pub stage: Stage,
    pub left: usize,
    pub width: usize,
}

impl Reader {
    // Takes the next line by its shape: refuses it for its first letter, then for its count of fields, or moves on. The match
    // of the reader's own stage with the letters, with guards on the counts, is the form that a rule of the project sets.
    pub fn take(&mut self, line: Shape) -> Result<(), BadField>
        ensures { ◌≡◌ {A = Answered (Unit {0}) Bad × Machine} (result, self.new) (taken self.old line) }
    {
        let fields = line.fields;
        match (self.stage, line.letter, line.second) {
            (Stage::Head, Some(b'R'), _) if fields == 5 => self.stage = Stage::Chooser,
            (Stage::Chooser, Some(b'P'), Some(b'S')) if fields == 3 => self.stage = Stage::Cells,
            (Stage::Chooser, Some(b'P'), Some(b'X')) if (3..=258).contains(&fields) => self.stage =
                Stage::Cells,
            (Stage::Chooser, Some(b'P'), Some(b'S' | b'X')) => {
                return Err(Cause::WrongCount.in_field(1));
            }
            (Stage::Chooser, Some(b'P'), _) if 2 <= fields => self.stage = Stage::Cells,
            (Stage::Cells, Some(b'V'), _) if 1 <= fields && fields - 1 == self.width => {
                if self.left <= 1 {
                    self.stage = Stage::Calls;
                }
                self.left = self.left.saturating_sub(1);
            }
            (Stage::Head, Some(b'R'), _)
            | (Stage::Chooser, Some(b'P'), _)
            | (Stage::Cells, Some(b'V'), _) => return Err(Cause::WrongCount.in_field(1)),
            _ => return Err(Cause::WrongLetter.in_field(1)),
        }
        Ok(())
    }
}
