//! What is written of a frame.
ghost use Rattle.std.specs.Prelude.{◌≤◌, length};

use crate::Wanted;
use frame::Frame;
use show::Cells;

/// A frame of at most 2,048 x 2,048 pixels with its field, and the form in which it is written.
#[derive(Clone, Copy)]
pub struct View<'f, 'c> {
    /// The form.
    pub wanted: Wanted,
    /// The frame.
    pub setup: &'f Frame,
    /// The lists of its field.
    pub cells: Cells<'c>,
    ghost width: { setup.now.width ≤ 2048 },
    ghost height: { setup.now.height ≤ 2048 },
    ghost y_room: { 65536 ≤ length cells.y.now },
    ghost x_room: { 65536 ≤ length cells.x.now },
    ghost reference_room: { 65536 ≤ length cells.reference.now },
}
