ghost use Rattle.std.specs.Prelude.{◌≡◌, ℕ, List, map, None};
ghost use Rattle.output.specs.Lines.{line_of, refusal_line, value_line};
ghost use Rattle.output.specs.Lent.{LineWritten, LinesWritten, WritesLine};

use crate::lines::Lead;
use crate::paper::Paper;
use arrayvec::ArrayVec;
use terms::refusals::Refusal;
use values::kinds::Kind;

// The numbers of a value's fields.
fn fields_of<K: Kind>(value: &K) -> ArrayVec<u64, 64>
    ensures { result.items ≡ K.form.fields value.now }
{
    // Fields go by number, and the library's `collect` asks for an allocator.
    let mut fields = ArrayVec::new();
    for i in 0..K::count() {
        fields.push(value.field(i));
    }
    fields
}

// Writes the lines of a list's items; `line` is the line that a writer gives an item. A trait and no closure: what calls a closure has to
// require that it can be called, and `write_lines` requires nothing.
pub trait LineWriter<T> {
    ghost line: { Self → T → List ℕ };

    fn write(&self, paper: &mut Paper<'_>, item: &T) -> Result<(), Refusal>
        ensures { LineWritten (line self.now item.now) paper.old result paper.new };
}

// Writes the lines of a table's values.
struct ValueWriter;

impl<K: Kind> LineWriter<K> for ValueWriter {
    ghost line = { λ writer. value_line K.form };

    fn write(&self, paper: &mut Paper<'_>, value: &K) -> Result<(), Refusal> {
        paper.write_value(value)
    }
}

impl Paper<'_> {
    // Writes the line of a refusal: its number, then what it names.
    pub fn write_refusal(&mut self, refusal: Refusal) -> Result<(), Refusal>
        ensures { LineWritten (refusal_line refusal) self.old result self.new }
    {
        let lead = Lead::Number(refusal.number() as u64);
        match refusal {
            Refusal::Stale(place) | Refusal::NoPlace(place) => {
                self.write_line(lead, &[place.0], None)
            }
            Refusal::WrongTable(table) => self.write_line(lead, &[table.number() as u64], None),
            Refusal::BadLine(bad) => {
                let numbers = [bad.line as u64, bad.at.field as u64];
                self.write_line(lead, &numbers, Some(bad.at.cause.letter()))
            }
            _ => self.write_line(lead, &[], None),
        }
    }

    // Writes a line with the fields of a value.
    pub fn write_fields<K: Kind>(&mut self, lead: Lead, value: &K) -> Result<(), Refusal>
        ensures { LineWritten (line_of lead (K.form.fields value.now) None) self.old result self.new }
    {
        self.write_line(lead, fields_of(value).as_slice(), None)
    }

    // Writes the line of a cell's value: `V`, then its fields.
    pub fn write_value<K: Kind>(&mut self, value: &K) -> Result<(), Refusal>
        ensures { LineWritten (value_line K.form value.now) self.old result self.new }
    {
        self.write_fields(Lead::Letter(b'V'), value)
    }

    // Writes a line for each item of a list by a `LineWriter`, until one finds no room. A `for` with `?` is the plainest way to stop there.
    pub fn write_lines<T, W: LineWriter<T>>(
        &mut self,
        items: &[T],
        writer: &W,
    ) -> Result<(), Refusal>
        ensures { LinesWritten (map (W.line writer.now) items.now) self.old result self.new }
    {
        for item in items {
            writer.write(self, item)?;
        }
        Ok(())
    }

    // Calls a closure or a function by name with one item after another, until it fails. Where it writes each item's line, these
    // lines are promised; else only that this is safe and returns. No other public function has a `requires`: the check wants one
    // wherever a closure or function that was passed in is called.
    pub fn write_each<T, F: Fn(&mut Paper<'_>, &T) -> Result<(), Refusal>>(
        &mut self,
        items: &[T],
        write: F,
    ) -> Result<(), Refusal>
        requires callable { F.IsAlwaysCallable write }
        ensures { (line : T → List ℕ) → WritesLine (F.post write) line → LinesWritten (map line items.now) self.old result self.new }
    {
        for item in items {
            write(self, item)?;
        }
        Ok(())
    }

    // Writes a line for each of a table's values, until one finds no room.
    pub fn write_values<K: Kind>(&mut self, values: &[K]) -> Result<(), Refusal>
        ensures { LinesWritten (map (value_line K.form) values.now) self.old result self.new }
    {
        self.write_lines(values, &ValueWriter)
    }
}
