ghost use Rattle.std.specs.Prelude.{◌∷◌, []};

use crate::kind::Alike;
use crate::table::Distinct;
use std::alloc::AllocError;

// An entry that shows its key, and not the note beside it.
#[derive(Clone, Copy)]
struct Entry {
    key: u8,
    note: u8,
}

impl Alike for Entry {
    ghost shown = { λ e. e.key ∷ [] };

    fn alike(&self, other: &Entry) -> bool {
        self.key == other.key
    }
}

#[test]
fn entries_that_show_the_same_are_alike(rt: HostRuntime) -> Result<(), AllocError> {
    let mut table = Distinct::new(rt.alloc(), 2)?;
    assert_eq!(rt; table.add(Entry { key: 1, note: 1 }), Some(0));
    assert_eq!(rt; table.add(Entry { key: 1, note: 2 }), Some(0));
    assert_eq!(rt; table.add(Entry { key: 2, note: 1 }), Some(1));
    assert_eq!(rt; table.find(&Entry { key: 2, note: 3 }), Some(1));
    assert!(rt;
        table
            .as_slice()
            .first()
            .is_some_and(|entry| entry.note == 1)
    );
    Ok(())
}
