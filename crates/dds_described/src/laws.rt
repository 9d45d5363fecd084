//! Laws about values. Each is an empty function whose contract is the law.

ghost use Rattle.dds_xcdr.specs.Xtype.{Xtype};
ghost use Rattle.dds_described.specs.Decoding.{KeepsKey};
ghost use Rattle.dds_described.specs.Laws.{ValuesAreXcdr};

/// The value of a type that is found where a reader is, is the one that the octets there encode
/// (DDS-XTypes 7.4). So octets encode at most one value.
#[tactic(auto, using(crate::proofs::Values::lawful))]
pub fn the_value_is_the_one_that_is_encoded()
    ensures { ValuesAreXcdr }
{}

/// The octets of the key in the key payload of a value, in either byte order, are those of the key
/// of the value (DDSI-RTPS 9.6.4.8).
#[tactic(auto, using(crate::proofs::KeyLaw::keeps_key))]
pub fn a_key_payload_has_the_key()
    ensures { (t : Xtype) → KeepsKey t }
{}
