// Numbers by chance, the same for the same seed.
#[derive(Drop)]
pub struct Draws {
    pub state: u32,
}

impl Draws {
    // One of `count` numbers from `low` on, or `low` where `count` is 0.
    pub(crate) fn draw(&mut self, low: u64, count: u8) -> u64 {
        self.state = self
            .state
            .wrapping_mul(1_664_525)
            .wrapping_add(1_013_904_223);
        let drawn = (self.state >> 16) as u64;
        if count == 0 {
            return low;
        }
        low.saturating_add(drawn % count as u64)
    }

    // 1 to 4, or now and then 5, which is the number of nothing.
    pub(crate) fn one_of_four(&mut self) -> u64 {
        let drawn = self.draw(0, 25);
        if drawn == 24 { 5 } else { drawn % 4 + 1 }
    }
}
