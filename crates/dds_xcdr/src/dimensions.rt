//! The dimensions of an array.

ghost use Rattle.std.specs.Prelude.{◌≡◌, ◌<◌, IfOk, IfErr};
ghost use Rattle.dds_xcdr.specs.Product.{product};

use crate::TypeFault;

/// The dimensions of an array (DDS-XTypes 7.2.2.4.3): how many items it has in each, the last of
/// which changes first.
#[derive(Debug, Drop)]
pub struct Dimensions {
    sizes: Vec<u32>,
    pub(crate) count: u32,
    ghost counted: { count ≡ product sizes.items },
    ghost some: { 0 < count },
}

impl Dimensions {
    ghost use Rattle.dds_xcdr.specs.Dimensions.{HasNoCount};
    ghost use Rattle.dds_xcdr.specs.declared.fault.TypeFault.TheVariants.{BadDimensions};

    /// Returns dimensions of these sizes. `BadDimensions` if there is none, if one of them is 0, or
    /// if 2^32 items or more would be in the array; the sizes are dropped then.
    pub fn new(sizes: Vec<u32>) -> Result<Dimensions, TypeFault>
        ensures ok { IfOk result (λ d. (d.sizes.items ≡ sizes.items)
            × ¬ (HasNoCount sizes.items)) }
        ensures err { IfErr result (λ fault. (fault ≡ BadDimensions) × HasNoCount sizes.items) }
    {
        if sizes.is_empty() {
            return Err(TypeFault::BadDimensions);
        }
        let mut count: u32 = 1;
        'sizes: for size in &sizes {
            let Some(more) = count.checked_mul(*size) else {
                return Err(TypeFault::BadDimensions);
            };
            if more == 0 {
                return Err(TypeFault::BadDimensions);
            }
            count = more;
        }
        Ok(Dimensions { sizes, count })
    }

    /// Returns the sizes.
    pub fn sizes(&self) -> &[u32]
        ensures { result.now ≡ self.now.sizes.items }
    {
        self.sizes.as_slice()
    }

    /// Returns how many items the array has in all.
    pub fn count(&self) -> u32
        ensures count { result ≡ self.now.count }
        ensures product { result ≡ product self.now.sizes.items }
        ensures some { 0 < result }
    {
        self.count
    }
}
