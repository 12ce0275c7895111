ghost use Rattle.std.specs.Prelude.{◌≡◌, ◌<◌, ◌≤◌, length, take, Ok, Err};
ghost use Rattle.terms.specs.declared.refusals.Refusal.TheVariants.{PaperFull};
ghost use Rattle.output.specs.Lent.{SameBytes, LinesWritten};
ghost use Rattle.schedule.specs.Accounts.{account_lines, account_of};

use crate::printing::print_opened;
use crate::reading::read_opening;
use output::paper::Paper;
use terms::refusals::Refusal;

// Writes the lines of a schedule's account, until one finds no room.
fn write_account(schedule: &[u8], paper: &mut Paper<'_>) -> Result<(), Refusal>
    ensures { LinesWritten (account_lines schedule.now) paper.old result paper.new }
{
    if schedule.len() > 65_536 {
        return paper.write_refusal(Refusal::BadSize);
    }
    match read_opening(schedule) {
        Ok(opening) => print_opened(opening, paper),
        Err(bad) => paper.write_refusal(Refusal::BadLine(bad)),
    }
}

// Prints the account of a schedule on an unused paper.
fn print_account(schedule: &[u8], paper: &mut Paper<'_>)
    requires { (paper.old.count.used ≡ 0) × (64 ≤ length paper.old.bytes.now) }
    ensures used { paper.new.count.used ≡ length (account_of (length paper.old.bytes.now) schedule.now) }
    ensures text { take paper.new.count.used paper.new.bytes.now ≡ account_of (length paper.old.bytes.now) schedule.now }
    ensures same { SameBytes paper.new paper.old }
{
    if write_account(schedule, paper).is_err() {
        paper.write_stop();
    }
}

// Prints the account of a schedule on a paper, and answers how many bytes it has. A paper of under 64 bytes is full from
// the beginning, and nothing is written on it.
pub fn account(schedule: &[u8], out: &mut [u8]) -> Result<usize, Refusal>
    ensures prints { elim result [ Ok used ↦ (64 ≤ length out.old) × (used ≡ length (account_of (length out.old) schedule.now)) × (take used out.new ≡ account_of (length out.old) schedule.now) | Err e ↦ (length out.old < 64) × (e ≡ PaperFull) × (out.new ≡ out.old) ] }
    ensures within { elim result [ Ok used ↦ used ≤ length out.new | Err _ ↦ Unit {0} ] }
{
    if out.len() < 64 {
        return Err(Refusal::PaperFull);
    }
    let mut paper = Paper::new(out);
    print_account(schedule, &mut paper);
    Ok(paper.count.used)
}
