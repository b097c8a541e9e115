ghost use Rattle.std.specs.Prelude.{◌≡◌, Some, refl, nat_eq};
ghost use Rattle.std.specs.Cmp.{partial_equiv_from_equiv};
ghost use Rattle.std.specs.Cmp.Lexicographic.{pointwise, slice_cmp, nat_list_eq_equiv, nat_list_cmp_total, texts_ties, texts_po};
ghost use Rattle.c_types.specs.Words.{name_cmp};
ghost use Rattle.name_keys.specs.Fronts.{front};

use crate::front::front_of;
use std::cmp::Ordering;
use std::marker::Model;

/// A name that is a key of a map or a set, which contracts see as the name.
#[derive(Drop)]
pub struct Key<'a> {
    first: u64,
    text: &'a [u8],
}

impl<'a> Model for Key<'a> {
    ghost use Rattle.std.specs.Prelude.{◌≡◌, List, ℕ};

    ghost Value = { List ℕ };

    ghost use Rattle.name_keys.specs.Fronts.{front, AreBytes};

    ghost view = { λ it. it.text.now };

    ghost invariant = { λ it. (it.first ≡ front 8 it.text.now) × AreBytes it.text.now };
}

impl<'a> Key<'a> {
    /// The name.
    pub fn text(&self) -> &'a [u8]
        ensures { result.now ≡ self.now }
    {
        self.text
    }
}

/// The key of a name with this front.
#[inline]
pub(crate) fn key_with(first: u64, text: &[u8]) -> Key<'_>
    requires { first ≡ front 8 text.now }
    ensures { result ≡ text.now }
{
    Key { first, text }
}

/// The key of a name.
pub fn key_of(text: &[u8]) -> Key<'_>
    ensures { result ≡ text.now }
{
    Key {
        first: front_of(text),
        text,
    }
}

impl<'a> PartialEq for Key<'a> {
    ghost eq = { pointwise nat_eq };

    ghost laws = { partial_equiv_from_equiv nat_list_eq_equiv };

    fn eq(&self, other: &Self) -> bool {
        self.first == other.first && self.text == other.text
    }
}

impl<'a> Eq for Key<'a> {
    ghost laws = { nat_list_eq_equiv };
}

impl<'a> PartialOrd for Key<'a> {
    ghost partial_cmp = { λ x y. Some (name_cmp x y) };

    ghost laws = { texts_po };

    fn partial_cmp(&self, other: &Self) -> Option<Ordering> {
        Some(self.cmp(other))
    }
}

impl<'a> Ord for Key<'a> {
    ghost cmp = { name_cmp };

    ghost total = { nat_list_cmp_total };

    ghost matches_partial_cmp = { λ x y. refl };

    ghost matches_eq = { texts_ties };

    fn cmp(&self, other: &Self) -> Ordering {
        if self.first != other.first {
            return self.first.cmp(&other.first);
        }
        let (len, other_len) = (self.text.len(), other.text.len());
        if len.min(other_len) <= 8 {
            return len.cmp(&other_len);
        }
        self.text.cmp(other.text)
    }
}
