//! What stays the same while a version is taken in.
use bd_gear::Gear;
use bd_model::Shape;
use bd_recipe::Neighbour;

/// What stays the same while a version is taken in.
#[derive(Clone, Copy)]
pub(crate) struct Terms<'a> {
    pub(crate) shape: Shape,
    pub(crate) gear: &'a Gear,
    // the recipe of the version before; an empty one where nothing is retained
    pub(crate) neighbour: &'a Neighbour,
    // the number of the version
    pub(crate) version: u32,
    // how many extents were free before
    pub(crate) free: u32,
}
