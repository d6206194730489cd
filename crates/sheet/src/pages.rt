use crate::lines::Lines;
use glossary::Glossary;
use vocabulary::Vocabulary;

// The tables of a sheet.
#[derive(Drop)]
pub(crate) struct Page {
    pub(crate) vocabulary: Vocabulary,
    pub(crate) glossary: Glossary,
    pub(crate) lines: Lines,
}
