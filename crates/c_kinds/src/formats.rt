//! What the format of `printf` wants.

ghost use Rattle.std.specs.Prelude.{◌≡◌, ◌++◌, IfOk, OnOk};
ghost use Rattle.c_kinds.specs.Formats as spec;

use crate::binding::Want;
use crate::format::Format;
use c_types::{List, Memory};
use std::alloc::Global;

fn is_short(byte: u8) -> bool
    ensures { result ≡ spec.is_short byte }
{
    byte == b'd' || byte == b'u' || byte == b'x' || byte == b'c'
}

fn is_long(byte: u8) -> bool
    ensures { result ≡ spec.is_long byte }
{
    byte == b'd' || byte == b'u'
}

fn next(format: Format, byte: u8) -> Option<Format>
    ensures { result ≡ spec.next format byte }
{
    match format {
        Format::Plain if byte == b'%' => Some(Format::Percent),
        Format::Plain => Some(Format::Plain),
        Format::Percent if byte == b'%' || is_short(byte) => Some(Format::Plain),
        Format::Percent if byte == b'l' => Some(Format::PercentLong),
        Format::PercentLong if is_long(byte) => Some(Format::Plain),
        _ => None,
    }
}

fn add_ended(format: Format, byte: u8, out: &mut List<Want>) -> Result<(), Memory>
    ensures { OnOk result (out.new ≡ out.old ++ spec.ended format byte) }
{
    match format {
        Format::Percent if is_short(byte) => out.push(Want::Sized(false)),
        Format::PercentLong if is_long(byte) => out.push(Want::Sized(true)),
        _ => Ok(()),
    }
}

/// What the conversions of a format want, in order; `None` where one is not known here.
pub fn wanted(alloc: Global, bytes: &[u8]) -> Result<Option<List<Want>>, Memory>
    ensures { IfOk result (λ wants. wants ≡ spec.wanted bytes.now) }
{
    let mut out = List::new(alloc);
    let mut format = Format::Plain;
    for byte in bytes {
        let Some(behind) = next(format, *byte) else {
            return Ok(None);
        };
        add_ended(format, *byte, &mut out)?;
        format = behind;
    }
    match format {
        Format::Plain => Ok(Some(out)),
        _ => Ok(None),
    }
}
