ghost use Rattle.sheet.specs.Fair.{Fair};
ghost use Rattle.sheet.specs.Store.{store_of};

use crate::pages::Page;

// A sheet: what is known of classes and items, as lines that were accepted (a knowledge base).
#[derive(Drop)]
pub struct Sheet {
    pub(crate) page: Page,
    ghost fair: { ∥ Fair (store_of page) ∥₁ },
}
