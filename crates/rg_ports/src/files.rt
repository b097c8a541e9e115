ghost use Rattle.std.specs.Prelude.{◌≡◌, ◌<◌, ◌≤◌, ◌↔◌, ◌≢◌, None, Some, Err, length, take, IfOk, OnOk, OnErr, IsSomeAnd, MatchOption};
ghost use Rattle.std.specs.Option.{option_copied};
ghost use Rattle.std.specs.FinMap.{from_entries, insert};
ghost use Rattle.c_types.specs.Words.{name_cmp};
ghost use Rattle.rg_ports.specs.FirstAt.{bytes_of, FirstAt};

use crate::port::ReadError;
use c_types::{Bytes, List, Memory, Name};
use std::alloc::Global;

/// The place of the first file with the name.
fn place_of(files: &[(Name, Bytes)], name: &str) -> Option<usize>
    ensures { MatchOption result (bytes_of name.now files.now ≡ None) (FirstAt files.now name.now) }
{
    for (place, file) in files.iter().enumerate() {
        if file.0.as_str() == name {
            return Some(place);
        }
    }
    None
}

/// The bytes of the first file with the name.
pub fn held_bytes<'a>(files: &'a [(Name, Bytes)], name: &str) -> Option<&'a [u8]>
    ensures { option_copied result ≡ bytes_of name.now files.now }
{
    let place = place_of(files, name)?;
    Some(files[place].1.as_slice())
}

/// A copy of the bytes of the first file with the name, if they are at most `most`.
pub fn copied_bytes(
    alloc: Global,
    files: &[(Name, Bytes)],
    name: &str,
    most: usize,
) -> Result<Bytes, ReadError>
    ensures ok { IfOk result (λ bytes. bytes_of name.now files.now ≡ Some bytes) }
    ensures most { IfOk result (λ bytes. length bytes ≤ most) }
    ensures absent { (result ≡ Err ReadError.Absent) ↔ (bytes_of name.now files.now ≡ None) }
    ensures too_long { (result ≡ Err ReadError.TooLong)
        ↔ IsSomeAnd (bytes_of name.now files.now) (λ bytes. most < length bytes) }
    ensures no_fault { result ≢ Err ReadError.Failed }
{
    match held_bytes(files, name) {
        None => Err(ReadError::Absent),
        Some(bytes) if bytes.len() > most => Err(ReadError::TooLong),
        Some(bytes) => match Bytes::from_slice(alloc, bytes) {
            Ok(copy) => Ok(copy),
            Err(_) => Err(ReadError::Memory),
        },
    }
}

/// Puts a copy of the bytes in place of those of the first file with the name, or adds the file.
pub fn put_bytes(
    alloc: Global,
    files: &mut List<(Name, Bytes)>,
    name: &str,
    bytes: &[u8],
) -> Result<(), Memory>
    ensures ok { OnOk result (from_entries {R = name_cmp} files.new
        ≡ insert (from_entries files.old) name.now bytes.now) }
    ensures err { OnErr result (files.new ≡ files.old) }
{
    let copy = Bytes::from_slice(alloc, bytes)?;
    match place_of(files.as_slice(), name) {
        Some(place) => {
            let file = files.at_mut(place);
            file.1 = copy;
        }
        None => {
            let name = Name::from_string(String::from_str(alloc, name)?);
            files.push((name, copy))?;
        }
    }
    Ok(())
}
