use emh_base::NoMemory;
use std::alloc::AllocError;

/// Why a case can't be played.
#[derive(Clone, Copy, Debug, PartialEq, Eq)]
pub enum CaseFault {
    /// No section begins with these words, or the text of one has a mark that there isn't.
    NoSection,
    NoMemory,
}

impl From<NoMemory> for CaseFault {
    fn from(_fault: NoMemory) -> CaseFault {
        CaseFault::NoMemory
    }
}

impl From<AllocError> for CaseFault {
    fn from(_fault: AllocError) -> CaseFault {
        CaseFault::NoMemory
    }
}
