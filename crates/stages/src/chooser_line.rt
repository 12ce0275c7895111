ghost use Rattle.std.specs.Prelude.{◌≡◌, length, drop};
ghost use Rattle.text.specs.Split.{field_count};
ghost use Rattle.stages.specs.HeadLines.{without_fields};
ghost use Rattle.stages.specs.ChooserLines.{stride_in, stride_of, numbers_in, numbers_of, read_chooser, choice_of};

use crate::stage::{letter_of, read_number};
use choosers::stride::Stride;
use terms::refusals::{BadField, Cause};
use text::{count_fields, read_field};

// What a chooser line says: a stride, or a script of so many numbers, which stand in the list that was lent for them. A
// count, since a clause cannot say what the list holds once its used part is lent out in the answer.
#[derive(Drop)]
pub enum ChooserLine {
    Stride(Stride),
    Script(usize),
}

// Reads a stride from what stands behind the chooser's letter: a number from 1 to 1,000,000.
fn read_stride(rest: &[u8]) -> Result<Stride, BadField>
    ensures { stride_of result ≡ stride_in rest.now }
{
    let (field, _) = read_field(rest);
    let step = read_number(field, 3)?;
    Stride::new(step).map_err(|_| Cause::OutOfRange.in_field(3))
}

// Reads a script's numbers, 1 to 256, from what stands behind the chooser's letter into a lent list, and answers how many.
// More numbers than the list holds are a wrong count of fields.
fn read_script(line: &[u8], numbers: &mut [u64]) -> Result<usize, BadField>
    ensures read { numbers_of result numbers.new ≡ numbers_in (length numbers.old) line.now }
    ensures rest { drop (field_count line.now) numbers.new ≡ drop (field_count line.now) numbers.old }
{
    let count = count_fields(line);
    if count > 256 || count > numbers.len() {
        return Err(Cause::WrongCount.in_field(1));
    }
    let mut rest = line;
    for (i, slot) in numbers[..count].iter_mut().enumerate() {
        let (field, after) = read_field(rest);
        *slot = read_number(field, 3 + i)?;
        rest = after;
    }
    Ok(count)
}

// Reads a chooser line, `P,S,stride` or `P,X,numbers`; a script's numbers go into a lent list.
pub fn read_chooser(line: &[u8], numbers: &mut [u64]) -> Result<ChooserLine, BadField>
    ensures read { choice_of result numbers.new ≡ read_chooser (length numbers.old) line.now }
    ensures rest { drop (field_count (without_fields 2 line.now)) numbers.new ≡ drop (field_count (without_fields 2 line.now)) numbers.old }
{
    let (_, rest) = read_field(line);
    let (letter, rest) = read_field(rest);
    match letter_of(letter) {
        Some(b'S') => Ok(ChooserLine::Stride(read_stride(rest)?)),
        Some(b'X') => Ok(ChooserLine::Script(read_script(rest, numbers)?)),
        _ => Err(Cause::NoNumber.in_field(2)),
    }
}
