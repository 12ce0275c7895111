ghost use Rattle.std.specs.Prelude.{◌≡◌};

use crate::count::Count;

// A paper: lent memory that the output is written into, and how many bytes of it are used. The buffer with its count is one
// struct; without a heap it is no vector.
#[derive(Drop)]
pub struct Paper<'a> {
    pub count: Count,
    pub bytes: &'a mut [u8],
}

impl<'a> Paper<'a> {
    // A paper of these bytes, none of them used.
    pub fn new(bytes: &'a mut [u8]) -> Paper<'a>
        ensures same { result.bytes.ghost_name ≡ bytes.entry.ghost_name }
        ensures bytes { result.bytes.now ≡ bytes.old }
        ensures unused { result.count.used ≡ 0 }
    {
        Paper {
            count: Count { used: 0 },
            bytes,
        }
    }
}
