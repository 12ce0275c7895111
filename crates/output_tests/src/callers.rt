ghost use Rattle.std.specs.Prelude.{map};
ghost use Rattle.output.specs.Lines.{value_line};
ghost use Rattle.output.specs.Lent.{LinesWritten};

use output::paper::Paper;
use terms::refusals::Refusal;
use values::kinds::Kind;

// Writes a line for each of a table's values by a closure. Its clause is that of `Paper::write_values`, so the check shows here
// that `write_each` promises the lines of a closure that writes each item's line.
pub fn write_values_by_closure<K: Kind>(paper: &mut Paper<'_>, values: &[K]) -> Result<(), Refusal>
    ensures { LinesWritten (map (value_line K.form) values.now) paper.old result paper.new }
{
    paper.write_each(values, |paper, value| paper.write_value(value))
}
