ghost use Rattle.std.specs.Prelude.{◌≡◌, ◌+◌};
ghost use Rattle.rules.specs.Contents.{closed_record};
ghost use Rattle.rules.specs.Heads.{dimensions_of};
ghost use Rattle.rules.specs.Tables.{at};
ghost use Rattle.rules.specs.Registers.{Register, flag_of, has_read, has_written, register_of};

use crate::flags::{is_read, is_written};
use crate::looking::{record_of, row};
use crate::numbered::Crew;
use rules::head::Started;
use rules::sizes::Sizes;
use rules::tables::Tables;
use std::marker::Model;
use terms::records::JobRecord;

// What a job call looks at: the head and the tables that it was handed. A contract sees the register that they make.
#[derive(Drop)]
pub struct View<'a, 't, V> {
    pub(crate) head: &'a Started,
    pub(crate) tables: &'a Tables<'t, V>,
}

impl<'a, 't, V> Model for View<'a, 't, V> {
    ghost Value = { Register V };

    ghost view = { λ v. register_of V v.head.now v.tables.now };
}

impl<'a, 't, V> View<'a, 't, V> {
    pub fn new(head: &'a Started, tables: &'a Tables<'t, V>) -> View<'a, 't, V>
        ensures { result ≡ register_of V head.now tables.now }
    {
        View { head, tables }
    }

    // The sizes of the register.
    pub fn sizes(&self) -> Sizes
        ensures { dimensions_of result ≡ self.now.head.sizes }
    {
        self.head.sizes
    }

    // The job record of a crew; past the table's end it counts as closed. The function of this name wants the tables alone.
    pub fn record_of(&self, crew: Crew) -> JobRecord
        ensures { result ≡ at self.now.tables.jobs crew.number closed_record }
    {
        record_of(self.tables, crew)
    }

    // The written and the read place of the cell `i`, counted from 0; past a table's end it is 0.
    pub fn places(&self, i: usize) -> (u64, u64)
        ensures written { result.0 ≡ at self.now.tables.written (i + 1) 0 }
        ensures read { result.1 ≡ at self.now.tables.read (i + 1) 0 }
    {
        let t: &Tables<'_, V> = self.tables;
        let written = t.written.get(i).copied().unwrap_or(0);
        let read = t.read.get(i).copied().unwrap_or(0);
        (written, read)
    }

    // The flag of a crew at the cell `i`, counted from 0; past the table's end it is 0. A sum that would be over
    // the largest number is past the end as well.
    fn flag(&self, crew: Crew, i: usize) -> u8
        ensures { result ≡ flag_of self.now crew.number (i + 1) }
    {
        let k = row(self.sizes(), crew).saturating_add(i);
        let t: &Tables<'_, V> = self.tables;
        t.flags.get(k).copied().unwrap_or(0)
    }

    // The crew's job has read the cell `i`, counted from 0, first-hand. It and `has_written` are two, as the two flags are.
    pub fn has_read(&self, crew: Crew, i: usize) -> bool
        ensures { result ≡ has_read self.now crew.number (i + 1) }
    {
        is_read(self.flag(crew, i))
    }

    // The crew's job has written the cell `i`, counted from 0.
    pub fn has_written(&self, crew: Crew, i: usize) -> bool
        ensures { result ≡ has_written self.now crew.number (i + 1) }
    {
        is_written(self.flag(crew, i))
    }
}
