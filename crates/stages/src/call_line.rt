ghost use Rattle.std.specs.Prelude.{◌≡◌};
ghost use Rattle.stages.specs.CallLines.{read_call};

use crate::stage::{letter_of, read_number};
use rules::calls::Call;
use terms::numbers::{CellNumber, CrewNumber};
use terms::refusals::{BadField, Cause};
use text::read_field;
use values::kinds::Kind;
use values::reading::read_value;

// Reads the call of a line, `O,crew` or `R,crew,cell` or `W,crew,cell,fields` or `C,crew` or `A,crew`, from left to right.
pub fn read_call<K: Kind>(line: &[u8]) -> Result<Call<K>, BadField>
    ensures { result ≡ read_call K.form line.now }
{
    let (letter, rest) = read_field(line);
    let (crew, rest) = read_field(rest);
    let (cell, fields) = read_field(rest);
    let crew = CrewNumber(read_number(crew, 2)?);
    match letter_of(letter) {
        Some(b'O') => Ok(Call::Open { crew }),
        Some(b'R') => {
            let cell = CellNumber(read_number(cell, 3)?);
            Ok(Call::Read { crew, cell })
        }
        Some(b'W') => {
            let cell = CellNumber(read_number(cell, 3)?);
            let value = read_value(fields, 4)?;
            Ok(Call::Write { crew, cell, value })
        }
        Some(b'C') => Ok(Call::Commit { crew }),
        Some(b'A') => Ok(Call::Abandon { crew }),
        _ => Err(Cause::WrongLetter.in_field(1)),
    }
}
