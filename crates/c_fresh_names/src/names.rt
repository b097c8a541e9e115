ghost use Rattle.std.specs.Prelude.{◌≡◌, false, length, IfOk};
ghost use Rattle.c_copies.specs.Names.{has_name};
ghost use Rattle.c_fresh_names.specs.Fresh.{numbered as the_numbered, first_free as the_first_free, fresh as the_fresh};

use c_copies::NameSet;
use c_types::{Memory, Name};
use itoa::Buffer;
use std::alloc::Global;

/// The name with a number, as `name_2`. Want of memory is the only failure.
pub fn numbered(alloc: Global, base: &str, n: u64) -> Result<Name, Memory>
    ensures { IfOk result (λ it. it ≡ the_numbered base.now n) }
{
    let mut buffer = Buffer::new();
    let mut name = String::from_str(alloc, base)?;
    name.push_str("_")?;
    name.push_str(buffer.format(n))?;
    Ok(Name::from_string(name))
}

fn first_free(alloc: Global, base: &str, used: &NameSet) -> Result<Name, Memory>
    ensures value { IfOk result (λ it. it ≡ the_first_free used.now base.now 2 (length used.now)) }
    ensures unused { IfOk result (λ it. has_name used.now it ≡ false) }
{
    let end = used.len() as u64 + 2;
    for n in 2..end {
        let name = numbered(alloc, base, n)?;
        if !used.contains(name.as_str()) {
            return Ok(name);
        }
    }
    numbered(alloc, base, end)
}

/// The name itself if it isn't used, else the first of `base_2`, `base_3` and so on that isn't used.
/// Want of memory is the only failure.
pub fn fresh(alloc: Global, base: &str, used: &NameSet) -> Result<Name, Memory>
    ensures value { IfOk result (λ it. it ≡ the_fresh base.now used.now) }
    ensures unused { IfOk result (λ it. has_name used.now it ≡ false) }
{
    if used.contains(base) {
        first_free(alloc, base, used)
    } else {
        Ok(Name::from_string(String::from_str(alloc, base)?))
    }
}
