#![tactic(auto)]

ghost use Rattle.std.specs.Prelude.{◌≡◌};
ghost use Rattle.text.specs.Numbers.{number_in};
ghost use Rattle.text.specs.Split.{before, after, field_count};

use memchr::memchr_iter;

// The number in a field of 1 to 19 digits, which may begin with zeros; none in any other field.
pub fn number(field: &[u8]) -> Option<u64>
    ensures { result ≡ number_in field.now }
{
    if field.is_empty() || field.len() > 19 {
        return None;
    }
    // A `for`, since a fold would carry the bound of the sum through a closure.
    let mut n: u64 = 0;
    for b in field {
        if !b.is_ascii_digit() {
            return None;
        }
        n = n * 10 + (*b - b'0') as u64;
    }
    Some(n)
}

// What stands before the first byte `separator`, and what after it; all and nothing where there is none.
pub fn cut(bytes: &[u8], separator: u8) -> (&[u8], &[u8])
    ensures first { result.0.now ≡ before separator bytes.now }
    ensures rest { result.1.now ≡ after separator bytes.now }
{
    // Byte by byte: most separators are a few bytes away, where memchr's wide search takes twice the time.
    match bytes.iter().position(move |byte| *byte == separator) {
        Some(i) => (&bytes[..i], &bytes[i + 1..]),
        None => (bytes, &[]),
    }
}

// A line's first field, with the bytes after its comma, which are yet to be read. It and `read_line` are `cut` at one
// byte: a name for each reads plainer than that byte at every call.
pub fn read_field(line: &[u8]) -> (&[u8], &[u8])
    ensures field { result.0.now ≡ before 44 line.now }
    ensures rest { result.1.now ≡ after 44 line.now }
{
    cut(line, b',')
}

// A text's first line, with the bytes after its line feed.
pub fn read_line(text: &[u8]) -> (&[u8], &[u8])
    ensures line { result.0.now ≡ before 10 text.now }
    ensures rest { result.1.now ≡ after 10 text.now }
{
    cut(text, b'\n')
}

// How many fields a line has: one more than its commas.
pub fn count_fields(line: &[u8]) -> usize
    ensures { result ≡ field_count line.now }
{
    1 + memchr_iter(b',', line).count()
}
