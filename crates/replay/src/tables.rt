// The tables that a call is lent.
ghost use Rattle.std.specs.Prelude.{◌≤◌, IfOk, vec_len};

use crate::fault::Fault;
use crate::words::{MOST, Reader, same};
use std::alloc::Global;
use std::num::f64_from_bits_with_nan;

// The longest workspace of a record.
const MOST_WORKSPACE: usize = 22_446;

// A table, counted from 1 in the order of the call's parameters, and what it holds.
#[derive(Drop)]
pub(crate) struct Table {
    number: u64,
    entries: Vec<f64>,
}

// What entry i of a table, from 0, holds before the call.
fn lent(number: u64, i: u64) -> f64 {
    let bits = 0x4000_0000_0000_0000_u64
        .wrapping_add(number << 44)
        .wrapping_add(i);
    f64_from_bits_with_nan(bits)
}

impl Table {
    // A table as it is before the call, as long as the next word says.
    pub(crate) fn lent(case: &mut Reader<'_>, alloc: Global, number: u64) -> Result<Table, Fault>
        ensures { IfOk result (λ table. vec_len table.entries ≤ 1024) }
    {
        Table::of_at_most(MOST, case, alloc, number)
    }

    // A workspace, in the same way.
    pub(crate) fn workspace(
        case: &mut Reader<'_>,
        alloc: Global,
        number: u64,
    ) -> Result<Table, Fault>
        ensures { IfOk result (λ table. vec_len table.entries ≤ 22446) }
    {
        Table::of_at_most(MOST_WORKSPACE, case, alloc, number)
    }

    // It has no entry where the word says more than any call is recorded with.
    fn of_at_most(
        most: usize,
        case: &mut Reader<'_>,
        alloc: Global,
        number: u64,
    ) -> Result<Table, Fault>
        ensures { IfOk result (λ table. vec_len table.entries ≤ most) }
    {
        let length = case.size()?;
        let length = if length <= most { length } else { 0 };
        let entries = (0..length as u64).map(|i| lent(number, i)).collect(alloc)?;
        Ok(Table { number, entries })
    }

    pub(crate) fn entries(&mut self) -> &mut [f64] {
        self.entries.as_mut_slice()
    }

    // The table begins with these words, and is as lent beyond them. Words past its end are those
    // that a longer table would be lent with.
    fn begins_with(&self, mut written: Reader<'_>) -> Result<(), Fault> {
        for i in 0..self.entries.len().max(written.len()) {
            let before = lent(self.number, i as u64);
            let entry = self.entries.get(i).copied().unwrap_or(before);
            if !same(entry, written.double().unwrap_or(before)) {
                return Err(Fault::Different);
            }
        }
        Ok(())
    }

    // The table begins with the list that comes next.
    pub(crate) fn is_recorded(&self, case: &mut Reader<'_>) -> Result<(), Fault> {
        self.begins_with(case.short_list()?)
    }

    // The table is a workspace, which is as lent where the next word asks for that.
    pub(crate) fn is_left_as_recorded(&self, case: &mut Reader<'_>) -> Result<(), Fault> {
        match case.word()? {
            0 => Ok(()),
            _ => self.begins_with(Reader::empty()),
        }
    }
}
