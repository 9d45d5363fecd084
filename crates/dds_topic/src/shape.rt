//! A value of the Shapes demo.

ghost use Rattle.std.specs.Prelude.{◌≡◌, ◌≤◌, length, true};
ghost use Rattle.std.specs.Str.{is_utf8};

use crate::color::Color;
use std::alloc::{Allocator, Global};

/// A shape, `ShapeType` of the Shapes demo: its color is its key.
#[derive(Debug, Drop)]
pub struct Shape<A: Allocator = Global> {
    /// At most 128 octets of UTF-8.
    pub color: Color<A>,
    pub x: i32,
    pub y: i32,
    /// The member `shapesize`.
    pub size: i32,
    ghost short: { length color ≤ 128 },
    ghost utf8: { is_utf8 color ≡ true },
}
