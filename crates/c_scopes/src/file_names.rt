//! Names of file scope.

ghost use Rattle.std.specs.Prelude.{◌≡◌, OnOk};
ghost use Rattle.c_kinds.specs.Views.{env_of};
ghost use Rattle.c_grammar.specs.Views.{words_of};
ghost use Rattle.c_scopes.specs.FileNames as spec;

use c_kinds::{Binding, Fault, Known, report_if};
use c_types::{Memory, Stack, is_known, reasons};

/// Binds the name of a token in the nearest scope, unless it has it.
pub fn bind_name(known: &mut Known, at: u32, binding: Binding) -> Result<(), Memory>
    ensures words { OnOk result (known.new.words ≡ known.old.words) }
    ensures env { OnOk result (env_of known.new ≡ spec.bound_in at binding (env_of known.old)) }
{
    let name = known.words.get(at);
    known.scopes.bind(name, binding)
}

/// Reports a name other than a function's that is a known function, `main`, or declared again.
pub fn report_file_name(faults: &mut Stack<Fault>, known: &Known, at: u32) -> Result<(), Memory>
    ensures { OnOk result (faults.new ≡ spec.file_name_faults at (env_of known.now) faults.old) }
{
    let name = known.words.get(at);
    report_if(faults, is_known(name), at, reasons::DECLARED_TWICE)?;
    report_if(faults, name == b"main".as_slice(), at, reasons::BAD_MAIN)?;
    report_if(
        faults,
        known.scopes.is_bound(name),
        at,
        reasons::DECLARED_TWICE,
    )
}
