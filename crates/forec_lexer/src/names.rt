//! The names of a text, numbered by their first use.
use forec_base::{Labels, OutOfMemory};
use indexmap::IndexSet;
use std::alloc::Global;

/// The names of a text, numbered from 0 in the order in which they first stand in it.
#[derive(Drop)]
pub struct Names<'a> {
    /// The names as the text spells them, which tells their numbers.
    set: IndexSet<&'a str>,
    /// Copies of the same names, in the same order.
    labels: Labels,
}

impl<'a> Names<'a> {
    ghost use Rattle.std.specs.Prelude.{◌≡◌, ◌<◌, ◌^◌, ◌-◌, [], length, IfOk, OnOk};
    ghost use Rattle.std.specs.Str.{IsAscii};
    ghost use Rattle.forec_tree.specs.LexedText.{name_number, with_spelt_name};
    ghost use Rattle.forec_lexer.specs.Shown.{IsSame};

    /// No names yet. The error is want of memory.
    pub fn new(alloc: Global) -> Result<Self, OutOfMemory>
        ensures empty { IfOk result (λ names. names.labels ≡ []) }
        ensures same { IfOk result (λ names. IsSame names) }
    {
        Ok(Names {
            set: IndexSet::new(alloc),
            labels: Labels::new(alloc)?,
        })
    }

    /// The number of a name, which is added if it is new.
    pub fn number(&mut self, name: &'a [u8]) -> Result<u32, OutOfMemory>
        requires ascii { IsAscii name.now }
        requires same { IsSame self.old }
        requires few { length self.old.labels < 2 ^ 32 - 1 }
        ensures number { IfOk result (λ id. id ≡ name_number self.old.labels name.entry.now) }
        ensures after { OnOk result
            (self.new.labels ≡ with_spelt_name self.old.labels name.entry.now) }
        ensures same { OnOk result (IsSame self.new) }
    {
        let Ok(name) = str::from_utf8(name) else {
            unreachable!()
        };
        let Ok((id, is_new)) = self.set.insert_full(name) else {
            return Err(OutOfMemory);
        };
        if is_new {
            self.labels.push(name)?;
        }
        Ok(id as u32)
    }

    /// The names alone, each at its number.
    pub fn into_labels(self) -> Labels
        ensures { result ≡ self.entry.labels }
    {
        let Names { set: _, labels } = self;
        labels
    }
}
