//! Laws about the catalogs. Each is an empty function whose contract is the law.

ghost use Rattle.dds_topic.specs.ShapeType.{BodiesAreShapes, PayloadsAreKeys};

/// How [`Shapes`](crate::Shapes) decodes a body: to the shape that it begins with, encoded as a
/// value of the struct `ShapeType` in the byte order of the encapsulation. It is malformed if there
/// is none.
pub fn bodies_are_shapes()
    ensures { BodiesAreShapes }
{}

/// How [`Shapes`](crate::Shapes) decodes a key payload: to the hash of the color that it begins
/// with. It is malformed if there is none.
pub fn payloads_are_keys()
    ensures { PayloadsAreKeys }
{}
