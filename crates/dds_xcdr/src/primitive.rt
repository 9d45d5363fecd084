//! The primitive types.

ghost use Rattle.std.specs.Prelude.{◌≡◌, IfSome};
ghost use Rattle.dds_xcdr.specs.Spans.{IsSize};
ghost use Rattle.dds_xcdr.specs.Types.{plain};
ghost use Rattle.dds_xcdr.specs.Xtype.{number_size};

/// A primitive type, by its name in DDS-XTypes 7.2.2.2.
#[derive(Clone, Copy, Debug, PartialEq, Eq)]
pub enum Primitive {
    /// A truth value: an octet that is 0 or 1.
    Boolean,
    /// An octet of which nothing is said (`Byte`).
    Octet,
    /// A character of 8 bits (`Char8`).
    Char,
    /// A signed number of 8 bits.
    Int8,
    /// A number of 8 bits.
    Uint8,
    /// A signed number of 16 bits.
    Int16,
    /// A number of 16 bits.
    Uint16,
    /// A signed number of 32 bits.
    Int32,
    /// A number of 32 bits.
    Uint32,
    /// A signed number of 64 bits.
    Int64,
    /// A number of 64 bits.
    Uint64,
    /// A binary floating point number of 32 bits (`Float32`).
    Float,
    /// A binary floating point number of 64 bits (`Float64`).
    Double,
}

impl Primitive {
    /// Returns the number of octets of the numbers that values are encoded as; `None` for a truth
    /// value, of which not every octet is one.
    pub fn number_size(self) -> Option<usize>
        ensures size { result ≡ number_size (plain self) }
        ensures sized { IfSome result IsSize }
    {
        match self {
            Primitive::Boolean => None,
            Primitive::Octet | Primitive::Char | Primitive::Int8 | Primitive::Uint8 => Some(1),
            Primitive::Int16 | Primitive::Uint16 => Some(2),
            Primitive::Int32 | Primitive::Uint32 | Primitive::Float => Some(4),
            Primitive::Int64 | Primitive::Uint64 | Primitive::Double => Some(8),
        }
    }
}
