//! Reading texts.

ghost use Rattle.std.specs.Prelude.{◌≢◌, All, IfErr, IsUtf8, OnOk};
ghost use Rattle.dds_idl.specs.Place.{IsAPlace};
ghost use Rattle.dds_idl.specs.declared.fault.IdlFault.TheVariants.{NoMemory};

use crate::cursor::Cursor;
use crate::directive::Given;
use crate::draft::Draft;
use crate::error::error_of;
use crate::words::{Fault, words};
use crate::{Declarations, IdlError, IdlFault, Source};
use std::alloc::Global;
use std::str;

/// Reads one text.
fn read_text(draft: &mut Draft, given: Given<'_>, source: &Source<'_>) -> Result<(), Fault>
    ensures { OnOk result (IsUtf8 source.now.text.now) }
{
    let text = match str::from_utf8(source.text) {
        Ok(text) => text,
        Err(error) => {
            return Err(Fault {
                at: error.valid_up_to(),
                what: IdlFault::NotUtf8,
            });
        }
    };
    match words(draft.alloc, text) {
        Ok(words) => draft.definitions(&mut Cursor::new(words.as_slice()), given),
        Err(fault) => Err(fault),
    }
}

/// Reads texts in IDL 4.2, one after another, and returns what they declare. `alloc` is where that
/// will be kept, and `sources` are the texts, each after those that it includes: a type has to be
/// declared before it is used.
///
/// The first fault is returned, with its place: the octet that isn't UTF-8; the start of a comment
/// or literal that doesn't end; the word that isn't expected, isn't declared or isn't supported; the
/// name of a declaration that is refused; the operator that gives no number; `NoMemory` if memory is
/// refused. [`IdlFault`] has them all. Nothing of the texts is kept then.
///
/// For its words and for what it declares, a text takes a constant number of octets for each of its
/// own. Each word is looked at a few times, and each name in as many modules as are open.
///
/// # Example
///
/// ```
/// let text = "module shapes { struct Shape { @key string<32> color; long x, y; }; };";
/// let source = Source { name: "shapes.idl", text: text.as_bytes() };
/// let declared = parse(alloc, &[source])?;
/// let shape = declared.find("shapes::Shape").ok_or("no such type")?;
/// let topic = TopicType::new(declared.into_types(), shape)?;
/// ```
pub fn parse(alloc: Global, sources: &[Source<'_>]) -> Result<Declarations, IdlError>
    ensures utf8 { OnOk result (All (λ source. IsUtf8 source.text.now) sources.now) }
    ensures place { IfErr result (λ e. e.what ≢ NoMemory → IsAPlace sources.now e) }
{
    let mut draft = Draft::new(alloc);
    for (index, source) in sources.iter().enumerate() {
        let (earlier, later) = sources.split_at(index);
        match read_text(&mut draft, Given { earlier, later }, source) {
            Ok(()) => {}
            Err(fault) => return Err(error_of(alloc, index, source, fault)),
        }
    }
    Ok(draft.made)
}
