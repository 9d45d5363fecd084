//! Types that can be part of a struct: numbers, booleans, strings, and sequences of such.

ghost use Rattle.std.specs.Prelude.{◌≡◌, ◌+◌, ◌*◌, ◌++◌, ◌∷◌, ◌≤◌, [], IfOk, OnOk, map, vec_capacity, vec_len};
ghost use Rattle.std.specs.Int.{w8, w16, w32, w64};
ghost use Rattle.std.specs.String.{string_bytes};
ghost use Rattle.dds_topic.specs.Answer.{Gives};
ghost use Rattle.rtps_cdr.specs.Cdr.{CdrType, ValueOf, Unsigned, Signed, Boolean, Both, Text, Sequence};
ghost use Rattle.dds_struct.specs.Value.{readable, value, behind, items, behind_items};

use dds_topic::CatalogError;
use rtps_cdr::CdrReader;
use std::alloc::{AllocError, Global};

/// A type whose values can be read from a CDR reader (CORBA CDR 9.3).
///
/// A user's struct can be one too, and reads its members in order.
pub trait Member: Sized + Drop {
    // The CDR type of its values.
    ghost cdr: { CdrType };

    // The meaning of a value.
    ghost view: { Self → ValueOf cdr };

    /// Reads a value, and moves the reader after it.
    ///
    /// The error is `Unread::Malformed` if there is no value of the type.
    fn read(alloc: Global, reader: &mut CdrReader<'_>) -> Result<Self, CatalogError>
        ensures value { Gives view result (readable (value cdr reader.old)) }
        ensures moves { OnOk result (reader.new ≡ behind cdr reader.old) };
}

impl Member for u8 {
    ghost cdr = { Unsigned 1 };

    ghost view = { λ n. n };

    fn read(_: Global, reader: &mut CdrReader<'_>) -> Result<u8, CatalogError> {
        Ok(reader.read_u8()?)
    }
}

impl Member for u16 {
    ghost cdr = { Unsigned 2 };

    ghost view = { λ n. n };

    fn read(_: Global, reader: &mut CdrReader<'_>) -> Result<u16, CatalogError> {
        Ok(reader.read_u16()?)
    }
}

impl Member for u32 {
    ghost cdr = { Unsigned 4 };

    ghost view = { λ n. n };

    fn read(_: Global, reader: &mut CdrReader<'_>) -> Result<u32, CatalogError> {
        Ok(reader.read_u32()?)
    }
}

impl Member for u64 {
    ghost cdr = { Unsigned 8 };

    ghost view = { λ n. n };

    fn read(_: Global, reader: &mut CdrReader<'_>) -> Result<u64, CatalogError> {
        Ok(reader.read_u64()?)
    }
}

impl Member for i8 {
    ghost cdr = { Signed w8 };

    ghost view = { λ n. n };

    fn read(_: Global, reader: &mut CdrReader<'_>) -> Result<i8, CatalogError> {
        Ok(reader.read_i8()?)
    }
}

impl Member for i16 {
    ghost cdr = { Signed w16 };

    ghost view = { λ n. n };

    fn read(_: Global, reader: &mut CdrReader<'_>) -> Result<i16, CatalogError> {
        Ok(reader.read_i16()?)
    }
}

impl Member for i32 {
    ghost cdr = { Signed w32 };

    ghost view = { λ n. n };

    fn read(_: Global, reader: &mut CdrReader<'_>) -> Result<i32, CatalogError> {
        Ok(reader.read_i32()?)
    }
}

impl Member for i64 {
    ghost cdr = { Signed w64 };

    ghost view = { λ n. n };

    fn read(_: Global, reader: &mut CdrReader<'_>) -> Result<i64, CatalogError> {
        Ok(reader.read_i64()?)
    }
}

impl Member for bool {
    ghost cdr = { Boolean };

    ghost view = { λ b. b };

    fn read(_: Global, reader: &mut CdrReader<'_>) -> Result<bool, CatalogError> {
        Ok(reader.read_bool()?)
    }
}

impl Member for String {
    ghost cdr = { Text };

    ghost view = { string_bytes };

    fn read(alloc: Global, reader: &mut CdrReader<'_>) -> Result<String, CatalogError> {
        Ok(String::from_str(alloc, reader.read_string()?)?)
    }
}

/// Consecutive members; three are `(A, (B, C))`, and so on.
impl<S: Member, T: Member> Member for (S, T) {
    ghost cdr = { Both S.cdr T.cdr };

    ghost view = { λ v. (S.view v.0, T.view v.1) };

    fn read(alloc: Global, reader: &mut CdrReader<'_>) -> Result<(S, T), CatalogError> {
        let first = S::read(alloc, reader)?;
        let second = T::read(alloc, reader)?;
        Ok((first, second))
    }
}

impl<T: Member> Member for Vec<T> {
    ghost cdr = { Sequence T.cdr };

    ghost view = { λ v. map T.view v.items };

    fn read(alloc: Global, reader: &mut CdrReader<'_>) -> Result<Vec<T>, CatalogError> {
        let count = reader.read_len()?;
        read_items(alloc, reader, count)
    }
}

/// Appends a value. A full list doubles its capacity, from four on. So memory grows with the values
/// that are read, and not with the count that the sender states, which isn't trusted.
fn add<T: Drop>(found: &mut Vec<T>, value: T) -> Result<(), AllocError>
    ensures items { OnOk result (found.new.items ≡ found.old.items ++ value ∷ []) }
    ensures bounded { vec_capacity found.old ≤ 2 * vec_len found.old + 4
        → OnOk result (vec_capacity found.new ≤ 2 * vec_len found.new + 4) }
{
    if found.len() == found.capacity() {
        found.reserve_exact(found.len().max(4))?;
    }
    found.push_reserved(value);
    Ok(())
}

/// Reads `count` values. The count isn't trusted: memory is taken only for values that are there.
#[tactic(auto, using(crate::proofs::Items::items_step, crate::proofs::Items::items_done, crate::proofs::Items::behind_step, crate::proofs::Items::behind_done, crate::proofs::Items::items_fault))]
fn read_items<T: Member>(
    alloc: Global,
    reader: &mut CdrReader<'_>,
    count: u32,
) -> Result<Vec<T>, CatalogError>
    ensures value { Gives (λ v. map T.view v.items) result (readable
        (items (λ c. value T.cdr c) (λ c. behind T.cdr c) count reader.old)) }
    ensures moves { OnOk result (reader.new ≡ behind_items (λ c. behind T.cdr c) count reader.old) }
    ensures bounded { IfOk result (λ found. vec_capacity found ≤ 2 * vec_len found + 4) }
{
    let mut found = Vec::new(alloc);
    'items: for _i in 0..count {
        if add(&mut found, T::read(alloc, reader)?).is_err() {
            return Err(CatalogError::NoMemory);
        }
    }
    Ok(found)
}
