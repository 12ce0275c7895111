use crate::draws::Draws;
use rules::calls::Call;
use terms::numbers::{CellNumber, CrewNumber};
use values::kinds::Kind;
use values::records::{Card, Dial};

// A kind whose values can be had by chance.
pub trait Sample: Kind + Clone + Drop {
    fn sample(draws: &mut Draws) -> Self;
}

impl Sample for Card {
    fn sample(draws: &mut Draws) -> Card {
        let serial = (draws.draw(1, 99) & 0xff) as u32;
        let litres = (draws.draw(0, 200) & 0xff) as u32;
        let gateway = (draws.draw(1, 9) & 0xff) as u16;
        Card {
            serial,
            litres,
            gateway,
        }
    }
}

impl Sample for Dial {
    fn sample(draws: &mut Draws) -> Dial {
        Dial {
            number: (draws.draw(0, 200) & 0xff) as u32,
        }
    }
}

// A call by chance (so many of fourteen for each, hence the ranges), now and then of a crew or a cell that is not there.
pub(crate) fn call_by_chance<K: Sample>(draws: &mut Draws) -> Call<K> {
    let which = draws.draw(0, 14);
    let crew = CrewNumber(draws.one_of_four());
    let cell = CellNumber(draws.one_of_four());
    let value = K::sample(draws);
    match which {
        0..=2 => Call::Open { crew },
        3..=6 => Call::Read { crew, cell },
        7..=10 => Call::Write { crew, cell, value },
        11 | 12 => Call::Commit { crew },
        _ => Call::Abandon { crew },
    }
}
