//! The jumps and labels of flat forms.

ghost use Rattle.c_text.specs.Reading.{counts_of};

use c_scopes::FlatCounter;
use c_tree::Item;
use c_types::{List, Memory};
use flat_form::{flat_counts, most_counts};
use std::alloc::Global;

/// Counts by making the flat form.
#[derive(Clone, Copy)]
pub struct FlatForms {
    pub alloc: Global,
}

impl FlatCounter for FlatForms {
    ghost flat = { λ self. counts_of };

    fn most(&self, body: &List<Item>) -> Result<Option<(u64, u64)>, Memory> {
        most_counts(body)
    }

    fn count(&self, body: &List<Item>) -> Result<Option<(u64, u64)>, Memory> {
        flat_counts(self.alloc, body)
    }
}
