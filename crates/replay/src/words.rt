// A file of recorded cases (oracle/README.md) is a list of 64-bit words, each of 8 bytes, the
// lowest first.
ghost use Rattle.std.specs.Prelude.{◌≡◌, ◌↔◌, [], ◌∷◌, ◌+◌, ◌≤◌, length, vec_len, IsTrue, IsOk, IfOk};
ghost use Rattle.replay.specs.Words.{Read};

use crate::fault::Fault;
use std::alloc::Global;
use std::num::{f64_from_bits_with_nan, f64_to_bits_with_nan};

// The longest list or table of a record, a workspace apart (oracle/README.md).
pub(crate) const MOST: usize = 1_024;

// The words that are still to be read, of a file or of a case in it.
#[derive(Clone, Copy)]
pub(crate) struct Reader<'a> {
    rest: &'a [[u8; 8]],
}

impl<'a> Reader<'a> {
    // Reads a file, which is made of whole words.
    pub(crate) fn new(file: &'a [u8]) -> Result<Reader<'a>, Fault> {
        let (rest, more) = file.as_chunks::<8>();
        if more.is_empty() {
            Ok(Reader { rest })
        } else {
            Err(Fault::Damaged)
        }
    }

    pub(crate) fn empty() -> Reader<'a>
        ensures { result.rest.now ≡ [] }
    {
        Reader { rest: &[] }
    }

    pub(crate) fn len(&self) -> usize {
        self.rest.len()
    }

    // The bytes of the next word.
    pub(crate) fn bytes(&mut self) -> Result<[u8; 8], Fault>
        ensures { IfOk result (λ next. self.old.rest.now ≡ next ∷ self.new.rest.now) }
    {
        let (next, rest) = self.rest.split_first().ok_or(Fault::Damaged)?;
        self.rest = rest;
        Ok(*next)
    }

    pub(crate) fn word(&mut self) -> Result<u64, Fault>
        ensures { IfOk result (λ _. Read 1 self.old.rest.now self.new.rest.now) }
    {
        Ok(u64::from_le_bytes(self.bytes()?))
    }

    pub(crate) fn double(&mut self) -> Result<f64, Fault>
        ensures { IfOk result (λ _. Read 1 self.old.rest.now self.new.rest.now) }
    {
        Ok(f64_from_bits_with_nan(self.word()?))
    }

    pub(crate) fn size(&mut self) -> Result<usize, Fault>
        ensures { IfOk result (λ _. Read 1 self.old.rest.now self.new.rest.now) }
    {
        Ok(usize::try_from(self.word()?)?)
    }

    pub(crate) fn flag(&mut self) -> Result<bool, Fault>
        ensures { IfOk result (λ _. Read 1 self.old.rest.now self.new.rest.now) }
    {
        Ok(self.word()? == 1)
    }

    // The words of a list, which begins with their number.
    pub(crate) fn list(&mut self) -> Result<Reader<'a>, Fault>
        ensures { IfOk result (λ list. Read (1 + length list.rest.now)
            self.old.rest.now self.new.rest.now) }
    {
        let count = self.size()?;
        let (list, rest) = self.rest.split_at_checked(count).ok_or(Fault::Damaged)?;
        self.rest = rest;
        Ok(Reader { rest: list })
    }

    // The words of a list, or none where they are more than any call is recorded with.
    pub(crate) fn short_list(&mut self) -> Result<Reader<'a>, Fault>
        ensures { IfOk result (λ list. length list.rest.now ≤ 1024) }
    {
        let list = self.list()?;
        if list.rest.len() <= MOST {
            Ok(list)
        } else {
            Ok(Reader::empty())
        }
    }

    // A list of doubles.
    pub(crate) fn doubles(&mut self, alloc: Global) -> Result<Vec<f64>, Fault>
        ensures { IfOk result (λ doubles. vec_len doubles ≤ 1024) }
    {
        let list = self.short_list()?.rest.iter();
        let doubles = list.map(|bytes| f64_from_bits_with_nan(u64::from_le_bytes(*bytes)));
        Ok(doubles.collect(alloc)?)
    }

    // Nothing is left.
    pub(crate) fn ends(&self) -> Result<(), Fault>
        ensures { IsOk result ↔ (self.now.rest.now ≡ []) }
    {
        if self.rest.is_empty() {
            Ok(())
        } else {
            Err(Fault::Damaged)
        }
    }
}

// Whether two doubles have the same bits; any NaN is as any other. (One line, which `figures` has
// too: a library for it is no plainer.)
pub(crate) fn same(x: f64, y: f64) -> bool
    ensures { IsTrue result ↔ (x ≡ y) }
{
    f64_to_bits_with_nan(x) == f64_to_bits_with_nan(y)
}
