//! Laws about the representation. Each is an empty function whose contract is the law.

ghost use Rattle.std.specs.Prelude.{List, ℕ};
ghost use Rattle.rtps_types.specs.declared.field.Endian.{Endian};
ghost use Rattle.rtps_cdr.specs.Cdr.{CdrType, ValueOf};
ghost use Rattle.dds_xcdr.specs.PlainCdr.{PlainIsCdr};

/// Version 1 is the plain common data representation that `rtps_cdr` has: octets encode a value in
/// the one exactly if they do in the other.
pub fn version_1_is_plain_cdr()
    ensures { (t : CdrType) (at : ℕ) (e : Endian) (octets : List ℕ) (v : ValueOf t)
        → PlainIsCdr t at e octets v }
{}
