ghost use Rattle.std.specs.Prelude.{◌≡◌};
ghost use Rattle.names.specs.Refusal.{at};
ghost use Rattle.names.specs.declared.refusals.Refusal.TheVariants.{NoMemory};

use crate::refusals::{Fault, Refusal};
use std::alloc::AllocError;

impl Refusal {
    // This refusal, about a field.
    pub fn in_field(self, field: usize) -> Fault
        ensures { result ≡ at field self }
    {
        Fault {
            field,
            refusal: self,
        }
    }
}

// A refusal by itself is about no field.
impl From<Refusal> for Fault {
    ghost from_gives = { λ refusal fault. fault ≡ at 0 refusal };

    fn from(refusal: Refusal) -> Fault {
        refusal.in_field(0)
    }
}

impl From<AllocError> for Refusal {
    ghost from_gives = { λ _ refusal. refusal ≡ NoMemory };

    fn from(_error: AllocError) -> Refusal {
        Refusal::NoMemory
    }
}

impl From<AllocError> for Fault {
    ghost from_gives = { λ _ fault. fault ≡ at 0 NoMemory };

    fn from(error: AllocError) -> Fault {
        Fault::from(Refusal::from(error))
    }
}
