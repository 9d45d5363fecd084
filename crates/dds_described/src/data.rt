//! Values of types that are described at run time.

ghost use Rattle.std.specs.Prelude.{◌≡◌, ◌<◌};
ghost use Rattle.std.specs.List.{All};

use dds_xcdr::Form;

/// A value of a type that is described at run time (DDS-XTypes 7.5.3): the octets that encode it,
/// and how they do.
#[derive(Debug, Drop)]
pub struct DynamicData {
    pub(crate) body: Vec<u8>,
    pub(crate) form: Form,
    ghost octets: { All (λ o. o < 256) body.items },
}

impl DynamicData {
    /// Returns the octets of the value, from the first after the encapsulation header on.
    pub fn octets(&self) -> &[u8]
        ensures { result.now ≡ self.now.body.items }
    {
        self.body.as_slice()
    }

    /// Returns the version and the byte order of the octets.
    pub fn form(&self) -> Form
        ensures { result ≡ self.now.form }
    {
        self.form
    }
}
