//! What does a receive on a link answer?

use crate::Text;

/// What was received on a link.
#[derive(Clone, Debug, PartialEq, Eq, Drop)]
pub enum Got {
    /// A text.
    Text(Text),
    /// Nothing for now.
    Idle,
    /// The link is closed, and gives nothing more.
    Closed,
}
