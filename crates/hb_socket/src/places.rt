//! How many links are open at once?

use std::alloc::{AllocError, Global};
use std::sync::Arc;
use std::sync::atomic::{AtomicUsize, Ordering};

/// How many links of one door may be open at once. It is below the number of files that a process
/// may mostly open (1,024), past which an accept fails.
pub const PLACE_COUNT: usize = 512;

/// The places of a door, of which each open link holds one.
///
/// Links end in threads of their own, so no contract says how many places are taken.
#[derive(Drop)]
pub(crate) struct Places {
    taken: Arc<AtomicUsize, Global>,
}

impl Places {
    /// Places that are all free. It answers an error only if there is no memory for their count.
    pub(crate) fn new(alloc: Global) -> Result<Self, AllocError> {
        let taken = Arc::new(alloc, AtomicUsize::new(0))?;
        Ok(Places { taken })
    }

    /// Whether no place is free.
    pub(crate) fn are_taken(&self) -> bool {
        self.taken.load(Ordering::SeqCst) >= PLACE_COUNT
    }

    /// Takes a place, which is free again once what this answers is dropped. It answers an error
    /// only if there are too many handles of the count.
    pub(crate) fn take(&self) -> Result<Place, AllocError> {
        let taken = Arc::try_clone(&self.taken)?;
        taken.fetch_add(1, Ordering::SeqCst);
        Ok(Place { taken })
    }
}

/// A place that is held.
pub(crate) struct Place {
    taken: Arc<AtomicUsize, Global>,
}

impl Drop for Place {
    fn drop(self) {
        let Place { taken } = self;
        taken.fetch_sub(1, Ordering::SeqCst);
    }
}
