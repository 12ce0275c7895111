ghost use Rattle.std.specs.Prelude.{◌≡◌};
ghost use Rattle.stages.specs.HeadLines.{kind_in, size_in, read_head};

use crate::stage::{letter_of, read_number};
use terms::refusals::{BadField, Cause};
use text::read_field;

// The kind of a register's values, as the head line names it.
#[derive(Clone, Copy)]
pub enum KindName {
    Card,
    Dial,
}

// What a head line says: the kind of value, and the counts of cells, crews and book entries.
#[derive(Clone, Copy)]
pub struct HeadLine {
    pub kind: KindName,
    pub cells: u64,
    pub crews: u64,
    pub entries: u64,
}

// The kind that a letter names: C for cards, D for dials.
fn read_kind(field: &[u8]) -> Result<KindName, BadField>
    ensures { result ≡ kind_in field.now }
{
    match letter_of(field) {
        Some(b'C') => Ok(KindName::Card),
        Some(b'D') => Ok(KindName::Dial),
        _ => Err(Cause::NoNumber.in_field(2)),
    }
}

// A size in field `at`: a number from 1 to `most`.
fn read_size(field: &[u8], at: usize, most: u64) -> Result<u64, BadField>
    ensures { result ≡ size_in at most field.now }
{
    let n = read_number(field, at)?;
    if !(1..=most).contains(&n) {
        return Err(Cause::OutOfRange.in_field(at));
    }
    Ok(n)
}

// Reads a head line, `R,kind,n,m,b`: 1 to 64 cells, 1 to 8 crews and 1 to 256 book entries.
pub fn read_head(line: &[u8]) -> Result<HeadLine, BadField>
    ensures { result ≡ read_head line.now }
{
    let (_, rest) = read_field(line);
    let (kind, rest) = read_field(rest);
    let (cells, rest) = read_field(rest);
    let (crews, rest) = read_field(rest);
    let (entries, _) = read_field(rest);
    let kind = read_kind(kind)?;
    let cells = read_size(cells, 3, 64)?;
    let crews = read_size(crews, 4, 8)?;
    let entries = read_size(entries, 5, 256)?;
    Ok(HeadLine {
        kind,
        cells,
        crews,
        entries,
    })
}
