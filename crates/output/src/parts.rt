ghost use Rattle.std.specs.Prelude.{◌≡◌, ◌+◌, ◌≤◌, ◌∷◌, length, decimal, nat_le};
ghost use Rattle.values.specs.Forms.{after_commas};
ghost use Rattle.output.specs.Laid.{laid};
ghost use Rattle.output.specs.Lent.{SameBytes, PieceWritten};

use crate::paper::Paper;
use itoa::Buffer;
use terms::refusals::Refusal;

// The parts of a line. Each is written after the used bytes, if 64 bytes of the paper remain after it.
impl Paper<'_> {
    // Whether 64 bytes of the paper remain after so many more.
    fn has_room(&self, more: usize) -> bool
        ensures { result ≡ nat_le (self.now.count.used + more + 64) (length self.now.bytes.now) }
    {
        let free = self.bytes.len().saturating_sub(self.count.used);
        free.saturating_sub(more) >= 64
    }

    // Copies bytes to after the used ones, where they fit.
    pub(crate) fn copy(&mut self, bytes: &[u8])
        requires { self.old.count.used + length bytes.now ≤ length self.old.bytes.now }
        ensures text { self.new.bytes.now ≡ laid self.old.bytes.now self.old.count.used bytes.now }
        ensures used { self.new.count.used ≡ self.old.count.used + length bytes.now }
        ensures same { SameBytes self.new self.old }
    {
        let used = self.count.used;
        let end = used + bytes.len();
        self.bytes[used..end].copy_from_slice(bytes);
        self.count.used = end;
    }

    // Writes bytes.
    pub(crate) fn put(&mut self, bytes: &[u8]) -> Result<(), Refusal>
        ensures { PieceWritten bytes.now self.old result self.new }
    {
        if !self.has_room(bytes.len()) {
            return Err(Refusal::PaperFull);
        }
        self.copy(bytes);
        Ok(())
    }

    // Writes the digits of a number by the library's buffer.
    #[inline(never)]
    fn put_number(&mut self, n: u64) -> Result<(), Refusal>
        ensures { PieceWritten (decimal n) self.old result self.new }
    {
        self.put(Buffer::new().format(n).as_bytes())
    }

    // Writes the digits of a number. One or two are written as they are, and the buffer is another function's: it takes
    // longer than these digits, and would slow them down where it only stands beside them.
    pub(crate) fn put_digits(&mut self, n: u64) -> Result<(), Refusal>
        ensures { PieceWritten (decimal n) self.old result self.new }
    {
        match n {
            0..=9 => self.put(&[b'0' + n as u8]),
            10..=99 => self.put(&[b'0' + (n / 10) as u8, b'0' + (n % 10) as u8]),
            _ => self.put_number(n),
        }
    }

    // Writes a comma and the digits of a number.
    fn put_field(&mut self, n: u64) -> Result<(), Refusal>
        ensures { PieceWritten (44 ∷ decimal n) self.old result self.new }
    {
        self.put(b",")?;
        self.put_digits(n)
    }

    // Writes numbers, each after a comma.
    pub(crate) fn put_fields(&mut self, numbers: &[u64]) -> Result<(), Refusal>
        requires { self.old.count.used + 64 ≤ length self.old.bytes.now }
        ensures { PieceWritten (after_commas numbers.now) self.old result self.new }
    {
        for n in numbers {
            self.put_field(*n)?;
        }
        Ok(())
    }
}
