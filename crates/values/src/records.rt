// A card: a meter's serial number, its reading in litres, and its gateway.
#[derive(Clone, Copy, PartialEq, Eq, Debug, Default)]
pub struct Card {
    pub serial: u32,
    pub litres: u32,
    pub gateway: u16,
}

// A dial: one number.
#[derive(Clone, Copy, PartialEq, Eq, Debug, Default)]
pub struct Dial {
    pub number: u32,
}
