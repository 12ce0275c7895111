ghost use Rattle.std.specs.Prelude.{◌≡◌};
ghost use Rattle.values.specs.Forms.{read_value};

use crate::kinds::Kind;
use terms::refusals::{BadField, Cause};
use text::{number, read_field};

// Reads a value's fields from what is left of a line, in which the first of them is field `first`, counted from 1. The
// first bad field is refused with its cause.
pub fn read_value<K: Kind>(line: &[u8], first: u8) -> Result<K, BadField>
    ensures { result ≡ read_value K.form first line.now }
{
    let mut value = K::blank();
    let mut rest = line;
    // Fields go by number.
    for i in 0..K::count() {
        let field = first as usize + i;
        let (part, after) = read_field(rest);
        let x = number(part).ok_or(Cause::NoNumber.in_field(field))?;
        value = value
            .with_field(i, x)
            .ok_or(Cause::OutOfRange.in_field(field))?;
        rest = after;
    }
    Ok(value)
}
