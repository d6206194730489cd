ghost use Rattle.std.specs.Prelude.{◌≡◌, vec_len};
ghost use Rattle.glossary.specs.declared.records.TheConstants.{CLASSES};

use crate::records::ClassRecord;

// A record for each of the `CLASSES`.
#[derive(Drop)]
pub struct Glossary {
    pub(crate) records: Vec<ClassRecord>,
    ghost all: { vec_len records ≡ CLASSES },
}
