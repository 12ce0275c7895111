use terms::records::{Entry, JobRecord};

// The seven tables, lent to each call. A register of n cells, m crews and b entries has n values, n written places, n read
// places, m job records, m × n own values, m × n flags and b entries of the book. That they are seven lent slices, the two
// of places slices of numbers, is a rule of the register: it has no memory of its own.
#[derive(Drop)]
pub struct Tables<'a, V> {
    pub values: &'a mut [V],
    pub written: &'a mut [u64],
    pub read: &'a mut [u64],
    pub jobs: &'a mut [JobRecord],
    pub own: &'a mut [V],
    pub flags: &'a mut [u8],
    pub book: &'a mut [Entry],
}
