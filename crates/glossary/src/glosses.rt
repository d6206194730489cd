ghost use Rattle.std.specs.Prelude.{◌≡◌, ℕ, ◌<◌, ◌≤◌, false, IfOk, None, slice_index_or};
ghost use Rattle.std.specs.Borrow.{sem, follows};
ghost use Rattle.std.specs.Vec.{with_item};
ghost use Rattle.glossary.specs.Defined.{Defined, PassedOn};
ghost use Rattle.glossary.specs.Records.{has_at, gloss_at, refers_at};
ghost use Rattle.glossary.specs.contracts.records.ClassRecord.{the_row as record-row};
ghost use Rattle.glossary.specs.contracts.table.Glossary.{the_row};

use crate::records::{CLASSES, ClassRecord, ClassSet};
use crate::table::Glossary;
use std::alloc::{AllocError, Global};

impl Glossary {
    // No class has a gloss.
    pub fn new(heap: Global) -> Result<Glossary, AllocError>
        ensures { IfOk result (λ g. ((c : ℕ) → gloss_at g.records.items c ≡ None) × ((c d : ℕ) → refers_at g.records.items c d ≡ false)) }
    {
        let plain = ClassRecord {
            gloss: None,
            refers: ClassSet::new(),
        };
        let mut records = Vec::new(heap);
        records.resize(CLASSES, plain)?;
        Ok(Glossary { records })
    }

    // The number of the term that glosses class `c`, if one does.
    pub fn gloss(&self, c: usize) -> Option<usize>
        ensures { result ≡ gloss_at self.now.records.items c }
    {
        self.records.get(c)?.gloss
    }

    // Class `c` refers to class `d` through glosses.
    pub fn refers(&self, c: usize, d: usize) -> bool
        ensures { result ≡ refers_at self.now.records.items c d }
    {
        self.records.get(c).is_some_and(|r| r.refers.has(d))
    }

    // The classes that class `c` refers to.
    pub(crate) fn reach_of(&self, c: usize) -> ClassSet
        ensures { (f : ℕ) → has_at result f ≡ refers_at self.now.records.items c f }
    {
        self.records.get(c).map_or(ClassSet::new(), |r| r.refers)
    }

    // Lends the record of class `c`.
    fn record(&mut self, c: usize) -> &mut ClassRecord
        requires { c < CLASSES }
        ensures* follows { sem 𝓛 (follows the_row record-row self.entry.ghost_name result.ghost_name (λ w. record { records = with_item self.old.records c w; all = self.old.all })) }
        ensures value { result.now ≡ slice_index_or self.old.records.items c result.now }
    {
        &mut self.records[c]
    }

    // Class `c`, and each that refers to it, refers to all of `reach` too.
    fn pass_on(&mut self, c: usize, reach: &ClassSet)
        requires { c < CLASSES }
        ensures glosses { (e : ℕ) → gloss_at self.new.records.items e ≡ gloss_at self.old.records.items e }
        ensures refers { PassedOn self.old.records.items c reach.now self.new.records.items }
    {
        for (e, record) in self.records.iter_mut().enumerate() {
            if e == c || record.refers.has(c) {
                record.refers.join(reach);
            }
        }
    }

    // Class `c` is glossed by the term of this number, which is, or refers to, the classes of `reach`. Nothing happens
    // where `c` is not below `CLASSES`.
    pub fn define(&mut self, c: usize, term: usize, reach: &ClassSet)
        ensures defined { c < CLASSES → Defined self.old.records.items c term reach.now self.new.records.items }
        ensures past { CLASSES ≤ c → self.new.records.items ≡ self.old.records.items }
    {
        if c < CLASSES {
            self.record(c).gloss = Some(term);
            self.pass_on(c, reach);
        }
    }
}
