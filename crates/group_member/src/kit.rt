//! What a member works with, whether by its layers or by code.

use crate::scratch::Scratch;
use crate::works::Works;

/// What a member works with, and what runs of its code keep.
pub struct Kit {
    pub(crate) works: Works,
    pub(crate) scratch: Scratch,
}
