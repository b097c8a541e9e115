ghost use Rattle.std.specs.Prelude.{◌≡◌, Some, refl, nat_eq};
ghost use Rattle.std.specs.Cmp.{partial_equiv_from_equiv};
ghost use Rattle.std.specs.Cmp.Lexicographic.{pointwise, nat_list_eq_equiv, nat_list_cmp_total, texts_ties, texts_po};
ghost use Rattle.c_types.specs.Words.{name_cmp};

use crate::front::front_of;
use crate::key::{Key, key_with};
use std::cmp::Ordering;
use std::marker::Model;

/// A name that stays a text while it is a key, which contracts see as the name.
#[derive(Drop)]
pub struct TextKey<'a> {
    first: u64,
    text: &'a str,
}

impl<'a> Model for TextKey<'a> {
    ghost use Rattle.std.specs.Prelude.{◌≡◌, List, ℕ};

    ghost Value = { List ℕ };

    ghost use Rattle.name_keys.specs.Fronts.{front};

    ghost view = { λ it. it.text.now };

    ghost invariant = { λ it. it.first ≡ front 8 it.text.now };
}

impl<'a> TextKey<'a> {
    /// The name.
    pub fn text(&self) -> &'a str
        ensures { result.now ≡ self.now }
    {
        self.text
    }

    #[inline]
    fn key(&self) -> Key<'a>
        ensures { result ≡ self.now }
    {
        key_with(self.first, self.text.as_bytes())
    }
}

/// The key of a text.
pub fn key_of_text(text: &str) -> TextKey<'_>
    ensures { result ≡ text.now }
{
    TextKey {
        first: front_of(text.as_bytes()),
        text,
    }
}

impl<'a> PartialEq for TextKey<'a> {
    ghost eq = { pointwise nat_eq };

    ghost laws = { partial_equiv_from_equiv nat_list_eq_equiv };

    fn eq(&self, other: &Self) -> bool {
        self.key() == other.key()
    }
}

impl<'a> Eq for TextKey<'a> {
    ghost laws = { nat_list_eq_equiv };
}

impl<'a> PartialOrd for TextKey<'a> {
    ghost partial_cmp = { λ x y. Some (name_cmp x y) };

    ghost laws = { texts_po };

    fn partial_cmp(&self, other: &Self) -> Option<Ordering> {
        Some(self.cmp(other))
    }
}

impl<'a> Ord for TextKey<'a> {
    ghost cmp = { name_cmp };

    ghost total = { nat_list_cmp_total };

    ghost matches_partial_cmp = { λ x y. refl };

    ghost matches_eq = { texts_ties };

    fn cmp(&self, other: &Self) -> Ordering {
        self.key().cmp(&other.key())
    }
}
