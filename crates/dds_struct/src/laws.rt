//! Laws about reading. Each is an empty function whose contract is the law.

ghost use Rattle.dds_struct.specs.Value.{ValuesAreCdr};

/// A value of a type is read exactly if the octets encode it (CORBA CDR 9.3).
#[tactic(auto, using(crate::specs::ReadLaw::lawful))]
pub fn values_are_those_of_the_representation()
    ensures { ValuesAreCdr }
{}
