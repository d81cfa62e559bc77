//! Is the server to stop?

use std::alloc::{AllocError, Global};
use std::sync::Arc;
use std::sync::atomic::{AtomicBool, Ordering};

/// A wish to stop, which the handles of one server share. Once it is made it stands.
///
/// Another thread may make it at any time, so no contract says whether it was made.
#[derive(Drop)]
pub struct Stop {
    asked: Arc<AtomicBool, Global>,
}

impl Stop {
    /// A wish that nobody has made yet. It answers an error only if there is no memory for it.
    pub fn new(alloc: Global) -> Result<Self, AllocError> {
        let asked = Arc::new(alloc, AtomicBool::new(false))?;
        Ok(Stop { asked })
    }

    /// Another handle of the same wish. It answers an error only if there are too many of them.
    pub fn share(&self) -> Result<Self, AllocError> {
        let asked = Arc::try_clone(&self.asked)?;
        Ok(Stop { asked })
    }

    /// Makes the wish.
    pub fn ask(&self) {
        self.asked.store(true, Ordering::SeqCst);
    }

    /// Whether the wish was made.
    pub fn is_asked(&self) -> bool {
        self.asked.load(Ordering::SeqCst)
    }
}
