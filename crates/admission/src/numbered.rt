ghost use Rattle.std.specs.Prelude.{◌≡◌, ◌≤◌, true, false, Some, None};
ghost use Rattle.rules.specs.Tables.{outside};

use rules::sizes::Sizes;
use terms::numbers::{CellNumber, CrewNumber};

// What is numbered from 1, up to the most of its kind that a register can have.
#[derive(Clone, Copy)]
pub struct Numbered<const MOST: usize> {
    pub number: usize,
    ghost from_one: { 1 ≤ number },
    ghost in_range: { number ≤ MOST },
}

// A crew that a register can have, by its number from 1.
pub type Crew = Numbered<32>;

// A cell that a register can have, by its number from 1.
pub type Cell = Numbered<1024>;

impl<const MOST: usize> Numbered<MOST> {
    // The one of this number; none where it is 0 or over the count.
    fn within(number: u64, count: usize) -> Option<Numbered<MOST>>
        requires { count ≤ MOST }
        ensures { elim result [ Some one ↦ (outside count number ≡ false) × (one.number ≡ number) × (one.number ≤ count) | None ↦ outside count number ≡ true ] }
    {
        if !(1..=count as u64).contains(&number) {
            return None;
        }
        Some(Numbered {
            number: number as usize,
        })
    }
}

// Two functions `of`, since by a rule of the register a crew's number and a cell's are two types; they go with two sizes.

impl Numbered<32> {
    // The crew of this number; none where it is 0 or over the count of crews.
    pub fn of(number: CrewNumber, sizes: Sizes) -> Option<Crew>
        ensures { elim result [ Some w ↦ (outside sizes.crews number.0 ≡ false) × (w.number ≡ number.0) × (w.number ≤ sizes.crews) | None ↦ outside sizes.crews number.0 ≡ true ] }
    {
        Numbered::within(number.0, sizes.crews)
    }
}

impl Numbered<1024> {
    // The cell of this number; none where it is 0 or over the count of cells.
    pub fn of(number: CellNumber, sizes: Sizes) -> Option<Cell>
        ensures { elim result [ Some c ↦ (outside sizes.cells number.0 ≡ false) × (c.number ≡ number.0) × (c.number ≤ sizes.cells) | None ↦ outside sizes.cells number.0 ≡ true ] }
    {
        Numbered::within(number.0, sizes.cells)
    }
}
