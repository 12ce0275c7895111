ghost use Rattle.std.specs.Prelude.{◌≡◌, ◌≤◌, true, false, Ok, Err};
ghost use Rattle.terms.specs.declared.refusals.Refusal.TheVariants.{BadSize};
ghost use Rattle.rules.specs.Limits.{most_cells, most_crews, most_entries, in_range};

use terms::refusals::Refusal;

// A register's sizes: how many cells and crews it has, and how many entries its book holds.
#[derive(Clone, Copy)]
pub struct Sizes {
    pub cells: usize,
    pub crews: usize,
    pub entries: usize,
    ghost some_cells: { 1 ≤ cells },
    ghost cells_fit: { cells ≤ most_cells },
    ghost some_crews: { 1 ≤ crews },
    ghost crews_fit: { crews ≤ most_crews },
    ghost some_entries: { 1 ≤ entries },
    ghost entries_fit: { entries ≤ most_entries },
}

impl Sizes {
    // 1 to 1,024 cells, 1 to 32 crews and 1 to 65,535 entries; any other is a bad size.
    pub fn new(cells: u64, crews: u64, entries: u64) -> Result<Sizes, Refusal>
        ensures { elim result [ Ok s ↦ (in_range cells crews entries ≡ true) × (s.cells ≡ cells) × (s.crews ≡ crews) × (s.entries ≡ entries) | Err e ↦ (in_range cells crews entries ≡ false) × (e ≡ BadSize) ] }
    {
        if !(1..=1024).contains(&cells)
            || !(1..=32).contains(&crews)
            || !(1..=65_535).contains(&entries)
        {
            return Err(Refusal::BadSize);
        }
        Ok(Sizes {
            cells: cells as usize,
            crews: crews as usize,
            entries: entries as usize,
        })
    }
}
