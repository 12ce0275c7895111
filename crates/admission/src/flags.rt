ghost use Rattle.std.specs.Prelude.{◌≡◌};
ghost use Rattle.rules.specs.Tables.{read_flag, written_flag, with_read, with_written};

// A flag is a byte of a lent table. Two functions for each of its two bits, as the rules name them apart: one over an enum of
// the two would have a case for each in every clause.

// The bit of a flag for 'read first-hand'.
const READ: u8 = 1;

// The bit of a flag for 'written'.
const WRITTEN: u8 = 2;

// The flag says that the job has read the cell first-hand.
pub fn is_read(flag: u8) -> bool
    ensures { result ≡ read_flag flag }
{
    flag & READ != 0
}

// The flag says that the job has written the cell.
pub fn is_written(flag: u8) -> bool
    ensures { result ≡ written_flag flag }
{
    flag & WRITTEN != 0
}

// The flag with 'read first-hand' in it.
pub fn with_read(flag: u8) -> u8
    ensures { result ≡ with_read flag }
{
    flag % 4 | READ
}

// The flag with 'written' in it.
pub fn with_written(flag: u8) -> u8
    ensures { result ≡ with_written flag }
{
    flag % 4 | WRITTEN
}
