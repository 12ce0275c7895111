ghost use Rattle.std.specs.Prelude.{◌≡◌, ℕ, ◌<◌, length, if◌then◌else◌, Some, None, nat_lt, slice_index_or, slice_set};

// A table of values over a lent slice: it is filled, read and written alike, whatever the kind of its values.
#[derive(Drop)]
pub struct ValueTable<'a, V> {
    rows: &'a mut [V],
}

impl<'a, V: Copy> ValueTable<'a, V> {
    // The table over these rows.
    pub fn new(rows: &'a mut [V]) -> ValueTable<'a, V>
        ensures same { result.rows.ghost_name ≡ rows.entry.ghost_name }
        ensures holds { result.rows.now ≡ rows.old }
    {
        ValueTable { rows }
    }

    // The value in row `i`, counted from 0; none past the last.
    pub fn get(&self, i: usize) -> Option<V>
        ensures { (d : V) → result ≡ (if nat_lt i (length self.now.rows.now) then Some (slice_index_or self.now.rows.now i d) else None) }
    {
        self.rows.get(i).copied()
    }

    // Stores a value in row `i`, counted from 0; past the last nothing is stored.
    pub fn put(&mut self, i: usize, v: V)
        ensures stored { self.new.rows.now ≡ slice_set self.old.rows.now i v }
        ensures same { self.new.rows.ghost_name ≡ self.old.rows.ghost_name }
    {
        // By index: what is stored through `get_mut` stays open in the proof.
        if i < self.rows.len() {
            self.rows[i] = v;
        }
    }
}
