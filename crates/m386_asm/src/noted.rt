//! What the lines so far gave once.

use crate::headers::Headers;
use m386_image::image::Planned;

/// What the lines so far gave once, and the plan's last entry.
#[derive(Drop)]
pub(crate) struct Noted {
    /// The headers.
    pub(crate) headers: Headers,
    /// The last entry of the plan.
    pub(crate) planned: Option<Planned>,
}
