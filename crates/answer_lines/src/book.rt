ghost use Rattle.std.specs.Prelude.{◌≡◌, map};
ghost use Rattle.output.specs.Lent.{LineWritten, LinesWritten};
ghost use Rattle.answer_lines.specs.Answers.{entry_line};

use output::answers::LineWriter;
use output::lines::Lead;
use output::paper::Paper;
use terms::records::Entry;
use terms::refusals::Refusal;

// Writes the line of an entry of the day book: `B`, the job, its crew, its place, and how it ended.
pub fn write_entry(paper: &mut Paper<'_>, entry: &Entry) -> Result<(), Refusal>
    ensures { LineWritten (entry_line entry.now) paper.old result paper.new }
{
    let numbers = [entry.job.0, entry.crew.0, entry.place.0];
    paper.write_line(Lead::Letter(b'B'), &numbers, Some(entry.ending.letter()))
}

// Writes the lines of the day book's entries.
struct EntryWriter;

impl LineWriter<Entry> for EntryWriter {
    ghost line = { λ writer. entry_line };

    fn write(&self, paper: &mut Paper<'_>, entry: &Entry) -> Result<(), Refusal> {
        write_entry(paper, entry)
    }
}

// Writes a line for each entry of the day book, until one finds no room.
pub fn write_entries(paper: &mut Paper<'_>, entries: &[Entry]) -> Result<(), Refusal>
    ensures { LinesWritten (map entry_line entries.now) paper.old result paper.new }
{
    paper.write_lines(entries, &EntryWriter)
}
