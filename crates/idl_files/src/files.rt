//! The type of a name in files.

ghost use Rattle.std.specs.Prelude.{◌≡◌, IfErr, IfOk, IfSome, OnOk};
ghost use Rattle.dds_xcdr.specs.TopicType.{topic_type};
ghost use Rattle.idl_files.specs.Types.{AddsTexts, AreSources, Declare, IsDeclared, IsDeclaredCause, IsTextsCause, IsTypesCause, IsUndeclared, IsUnread};

use crate::TypesFault;
use crate::parts::first_part;
use dds_idl::{Declarations, IdlError, IdlFault, Source, parse};
use dds_xcdr::TopicType;
use rtps_files::RecordFiles;
use std::alloc::{AllocError, Global};
use std::io::{ErrorKind, Read};

/// The most files.
const MOST_FILES: u8 = 16;

/// What a file holds.
#[derive(Debug, Drop)]
pub(crate) struct FileText<'a> {
    pub(crate) name: &'a str,
    pub(crate) octets: Vec<u8>,
}

/// Returns the fault that a file can't be read.
fn unread(alloc: Global, name: &str) -> TypesFault
    ensures { IsUnread name.now result }
{
    match String::from_str(alloc, name) {
        Ok(name) => TypesFault::CannotRead(name),
        Err(_) => TypesFault::NoMemory,
    }
}

/// Returns what the file of this name holds.
fn read_file<F: RecordFiles>(alloc: Global, files: &F, name: &str) -> Result<Vec<u8>, TypesFault>
    ensures octets { IfOk result (λ octets. IfSome (F.holds files.now name.now)
        (λ held. octets.items ≡ held)) }
    ensures cause { IfErr result (IsUnread name.now) }
{
    let Ok(mut file) = files.open(name) else {
        return Err(unread(alloc, name));
    };
    let mut octets = Vec::new(alloc);
    match file.read_to_end(&mut octets) {
        Ok(_) => Ok(octets),
        Err(error) if error.kind() == ErrorKind::OutOfMemory => Err(TypesFault::NoMemory),
        Err(_) => Err(unread(alloc, name)),
    }
}

/// Appends what the files hold that a text names with commas between them, `most` of them at the
/// most.
fn add_texts<'a, F: RecordFiles>(
    alloc: Global,
    files: &F,
    names: &'a str,
    most: u8,
    texts: &mut Vec<FileText<'a>>,
) -> Result<(), TypesFault>
    ensures added { OnOk result
        (AddsTexts (F.holds files.now) names.now most texts.old.items texts.new.items) }
    ensures cause { IfErr result (IsTextsCause names.now most) }
{
    if most == 0 {
        return Err(TypesFault::TooManyFiles);
    }
    let (name, rest) = first_part(names);
    let octets = match read_file(alloc, files, name) {
        Ok(octets) => octets,
        Err(fault) => return Err(fault),
    };
    let Ok(()) = texts.push(FileText { name, octets }) else {
        return Err(TypesFault::NoMemory);
    };
    match rest {
        Some(rest) => add_texts(alloc, files, rest, most - 1, texts),
        None => Ok(()),
    }
}

/// Returns these texts as sources.
fn sources_of<'s>(alloc: Global, texts: &'s [FileText<'_>]) -> Result<Vec<Source<'s>>, AllocError>
    ensures { IfOk result (λ sources. AreSources texts.now sources.items) }
{
    let mut sources = Vec::new(alloc);
    for text in texts {
        sources.push(Source {
            name: text.name,
            text: text.octets.as_slice(),
        })?;
    }
    Ok(sources)
}

/// Returns the type of this name that texts declare.
fn declared_in(alloc: Global, texts: &[FileText<'_>], name: &str) -> Result<TopicType, TypesFault>
    ensures declared { IfOk result (λ t. Declare texts.now name.now (topic_type t)) }
    ensures cause { IfErr result (IsDeclaredCause texts.now name.now) }
{
    let Ok(sources) = sources_of(alloc, texts) else {
        return Err(TypesFault::NoMemory);
    };
    let declared = match parse(alloc, sources.as_slice()) {
        Ok(declared) => declared,
        Err(error) if error.what == IdlFault::NoMemory => return Err(TypesFault::NoMemory),
        Err(error) => return Err(TypesFault::Idl(error)),
    };
    let Some(id) = declared.find(name) else {
        return Err(undeclared(alloc, name));
    };
    match TopicType::new(declared.into_types(), id) {
        Ok(topic) => Ok(topic),
        // The id is that of one of these types.
        Err(_) => Err(TypesFault::NoMemory),
    }
}

/// Returns the fault that no type of this name is declared.
fn undeclared(alloc: Global, name: &str) -> TypesFault
    ensures { IsUndeclared name.now result }
{
    match String::from_str(alloc, name) {
        Ok(name) => TypesFault::NoType(name),
        Err(_) => TypesFault::NoMemory,
    }
}

/// Returns the type of a name, as `nav_msgs::msg::dds_::Odometry_`, that files declare: 16 at the
/// most, whose names `names` has with commas between them, each after those that it includes.
///
/// `CannotRead` for the first file that can't be opened or read, `TooManyFiles` after the 16th,
/// `Idl` for the first fault of a text, `NoType` if they declare no type of this name, and
/// `NoMemory`.
///
/// # Example
///
/// ```
/// let odometry = "nav_msgs::msg::dds_::Odometry_";
/// let topic = declared_type(alloc, &files, "std.idl,nav.idl", odometry)?;
/// ```
pub fn declared_type<F: RecordFiles>(
    alloc: Global,
    files: &F,
    names: &str,
    name: &str,
) -> Result<TopicType, TypesFault>
    ensures declared { IfOk result
        (λ t. IsDeclared (F.holds files.now) names.now name.now (topic_type t)) }
    ensures cause { IfErr result (IsTypesCause (F.holds files.now) names.now name.now) }
{
    let mut texts = Vec::new(alloc);
    match add_texts(alloc, files, names, MOST_FILES, &mut texts) {
        Ok(()) => declared_in(alloc, texts.as_slice(), name),
        Err(fault) => Err(fault),
    }
}
