//! The color of a shape, which is its key.

ghost use Rattle.std.specs.Prelude.{◌≡◌, IfOk};

use arrayvec::ArrayString;
use std::alloc::{AllocError, Allocator, Global};
use std::marker::Model;

/// The name of a color. Names of up to 16 octets take no memory of their own.
#[derive(Debug, Drop)]
pub struct Color<A: Allocator = Global> {
    name: Name<A>,
}

/// A name, by its length.
#[derive(Debug, Drop)]
enum Name<A: Allocator> {
    /// A name of up to 16 octets.
    Short(ArrayString<16>),
    /// A longer name.
    Long(String<A>),
}

impl<A: Allocator> Model for Color<A> {
    ghost use Rattle.std.specs.Prelude.{List, ℕ};
    ghost use Rattle.dds_topic.specs.Color.{octets_of};

    ghost Value = { List ℕ };

    ghost view = { λ c. octets_of c.name };
}

impl<A: Allocator> Color<A> {
    /// Returns the color with this name.
    pub fn new(alloc: A, name: &str) -> Result<Color<A>, AllocError>
        ensures { IfOk result (λ color. color ≡ name.now) }
    {
        let name = match ArrayString::from(name) {
            Ok(short) => Name::Short(short),
            Err(_) => Name::Long(String::from_str(alloc, name)?),
        };
        Ok(Color { name })
    }

    /// Returns a copy.
    pub fn copied(&self, alloc: A) -> Result<Color<A>, AllocError>
        ensures { IfOk result (λ color. color ≡ self.now) }
    {
        let name = match &self.name {
            Name::Short(name) => Name::Short(*name),
            Name::Long(name) => Name::Long(String::from_str(alloc, name.as_str())?),
        };
        Ok(Color { name })
    }

    /// Returns the name.
    pub fn as_str(&self) -> &str
        ensures { result.now ≡ self.now }
    {
        match &self.name {
            Name::Short(name) => name.as_str(),
            Name::Long(name) => name.as_str(),
        }
    }
}
