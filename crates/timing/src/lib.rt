// Timing: work done again and again on a text made for it. The work on terms stands here.
#![tactic(auto)]

mod loads;
mod term_loads;

pub use loads::{Load, USAGE, is_asked_for, time};
pub use term_loads::Terms;

#[cfg(test)]
mod tests {
    use super::*;
    use std::alloc::AllocError;

    #[test]
    fn a_term_is_read_back_whole(rt: HostRuntime) -> Result<(), AllocError> {
        let text = Terms::text(rt.alloc(), 32)?;
        assert_eq!(rt; text.as_str(), "& & N0000 N0001 & N0002 N0003");
        assert_eq!(rt; Terms::work(rt.alloc(), text.as_bytes()), text.len());
        Ok(())
    }
}
