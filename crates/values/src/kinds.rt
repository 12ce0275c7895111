ghost use Rattle.std.specs.Prelude.{◌≡◌, ℕ, ◌≤◌, true, length, Ok, slice_index};
ghost use Rattle.values.specs.Forms.{Form, read_value, written};
ghost use Rattle.values.specs.Kinds.{card_form, dial_form};
ghost use Rattle.values.specs.KindLaws.{card_width, card_few, card_reads_back, dial_width, dial_few, dial_reads_back};

use crate::records::{Card, Dial};

// A kind of value, written as numbers in the fields of a line. The register takes any value as it is; only the reader of
// fields keeps the ranges.
pub trait Kind: Copy {
    // How many fields a value has.
    const FIELDS: usize;

    ghost form: { Form Self };

    // Beside FIELDS, which a rule of the project wants, since no ghost member of a trait can name its constants: each kind
    // shows the two to be the same.
    fn count() -> usize
        ensures { result ≡ form.width };

    fn blank() -> Self
        ensures { result ≡ form.blank };

    // The number in field `i`, counted from 0; 0 where there is none. Fields go by number, as a line is read and written.
    fn field(&self, i: usize) -> u64
        ensures { result ≡ slice_index (form.fields self.now) i };

    // The value with `x` in its field `i`, counted from 0; none where `x` is out of that field's range. A number and its field
    // come from a line apart.
    fn with_field(self, i: usize, x: u64) -> Option<Self>
        ensures { result ≡ form.with_field self i x };

    // A value has as many fields as its kind says, and no kind has more than 64.
    ghost width: { (v : Self) → length (form.fields v) ≡ form.width };

    ghost few: { form.width ≤ 64 };

    // The written fields of every value in range read back as that value.
    ghost reads_back: { (v : Self) (first : ℕ) → form.inside v ≡ true → read_value form first (written (form.fields v)) ≡ Ok v };
}

impl Kind for Card {
    const FIELDS: usize = 3;

    ghost form = { card_form };

    ghost width = { card_width };

    ghost few = { card_few };

    ghost reads_back = { card_reads_back };

    fn count() -> usize {
        Self::FIELDS
    }

    fn blank() -> Card {
        Card::default()
    }

    fn field(&self, i: usize) -> u64 {
        match i {
            0 => self.serial as u64,
            1 => self.litres as u64,
            2 => self.gateway as u64,
            _ => 0,
        }
    }

    fn with_field(self, i: usize, x: u64) -> Option<Card> {
        match (i, x) {
            (0, 1..=99_999_999) => Some(Card {
                serial: x as u32,
                ..self
            }),
            (1, 0..=999_999_999) => Some(Card {
                litres: x as u32,
                ..self
            }),
            (2, 1..=65_535) => Some(Card {
                gateway: x as u16,
                ..self
            }),
            _ => None,
        }
    }
}

impl Kind for Dial {
    const FIELDS: usize = 1;

    ghost form = { dial_form };

    ghost width = { dial_width };

    ghost few = { dial_few };

    ghost reads_back = { dial_reads_back };

    fn count() -> usize {
        Self::FIELDS
    }

    fn blank() -> Dial {
        Dial::default()
    }

    fn field(&self, i: usize) -> u64 {
        match i {
            0 => self.number as u64,
            _ => 0,
        }
    }

    fn with_field(self, i: usize, x: u64) -> Option<Dial> {
        match (i, x) {
            (0, 0..=999_999_999) => Some(Dial { number: x as u32 }),
            _ => None,
        }
    }
}
