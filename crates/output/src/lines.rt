ghost use Rattle.std.specs.Prelude.{◌≡◌, ◌+◌, ◌≤◌, cond, length, nat_le};
ghost use Rattle.output.specs.Laid.{laid};
ghost use Rattle.output.specs.Lines.{lead_bytes, tail_bytes, line_of, stop_line};
ghost use Rattle.output.specs.Lent.{SameBytes, PieceWritten, LineWritten};

use crate::guard::Line;
use crate::paper::Paper;
use terms::refusals::Refusal;

// What a line of output begins with.
#[derive(Clone, Copy)]
pub enum Lead {
    Letter(u8),
    Number(u64),
}

impl Paper<'_> {
    // Writes what a line begins with.
    fn put_lead(&mut self, lead: Lead) -> Result<(), Refusal>
        ensures { PieceWritten (lead_bytes lead) self.old result self.new }
    {
        match lead {
            Lead::Letter(b) => self.put(&[b]),
            Lead::Number(n) => self.put_digits(n),
        }
    }

    // Writes a comma and a letter, where there is one: two pieces, as before each number, so that a line which breaks off
    // between them has left the comma behind the used bytes.
    fn put_tail(&mut self, tail: Option<u8>) -> Result<(), Refusal>
        requires { self.old.count.used + 64 ≤ length self.old.bytes.now }
        ensures { PieceWritten (tail_bytes tail) self.old result self.new }
    {
        match tail {
            Some(b) => {
                self.put(b",")?;
                self.put(&[b])
            }
            None => Ok(()),
        }
    }

    // Writes a line after the used bytes, if 64 bytes of the paper remain after it. A line that is broken off is taken back.
    pub fn write_line(
        &mut self,
        lead: Lead,
        numbers: &[u64],
        tail: Option<u8>,
    ) -> Result<(), Refusal>
        ensures { LineWritten (line_of lead numbers.now tail) self.old result self.new }
    {
        let back_to = Some(self.count.used);
        let mut line = Line {
            paper: self,
            back_to,
        };
        line.paper.put_lead(lead)?;
        line.paper.put_fields(numbers)?;
        line.paper.put_tail(tail)?;
        line.paper.put(b"\n")?;
        line.back_to = None;
        Ok(())
    }

    // Ends the output with the line `12`, in the bytes that every line before it left free; where not even these are free,
    // nothing is written.
    pub fn write_stop(&mut self)
        ensures text { self.new.bytes.now ≡ cond (nat_le (self.old.count.used + 3) (length self.old.bytes.now)) (laid self.old.bytes.now self.old.count.used stop_line) self.old.bytes.now }
        ensures used { self.new.count.used ≡ cond (nat_le (self.old.count.used + 3) (length self.old.bytes.now)) (self.old.count.used + 3) self.old.count.used }
        ensures same { SameBytes self.new self.old }
    {
        if self.bytes.len().saturating_sub(self.count.used) >= 3 {
            self.copy(b"12\n");
        }
    }
}
