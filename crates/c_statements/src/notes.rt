//! The comments of a file, by their places.

ghost use Rattle.std.specs.Prelude.{◌≡◌, [], OnOk};
ghost use Rattle.std.specs.Option.{option_copied};
ghost use Rattle.c_statements.specs.Context as spec;
ghost use Rattle.c_statements.specs.NoteViews as views;

use crate::anchors::Anchor;
use c_types::{List, Memory};
use std::alloc::Global;
use std::collections::BTreeMap;

/// Comments by the numbers of tokens.
#[derive(Drop)]
struct TokenNotes<'a> {
    notes: BTreeMap<u32, List<&'a [u8]>>,
}

fn or_none<'a>(alloc: Global, notes: Option<List<&'a [u8]>>) -> List<&'a [u8]>
    ensures { views.all_now result ≡ views.notes_in notes.entry }
{
    match notes {
        Some(notes) => notes,
        None => List::new(alloc),
    }
}

impl<'a> TokenNotes<'a> {
    fn new(alloc: Global) -> TokenNotes<'a>
        ensures { views.token_notes result ≡ (λ n. []) }
    {
        TokenNotes {
            notes: BTreeMap::new(alloc),
        }
    }

    fn at(&self, token: u32) -> Option<&List<&'a [u8]>>
        ensures { views.notes_in (option_copied result) ≡ views.token_notes self.now token }
    {
        self.notes.get(&token)
    }

    fn push(&mut self, alloc: Global, token: u32, bytes: &'a [u8]) -> Result<(), Memory>
        ensures { OnOk result (views.token_notes self.new ≡ views.with_token_note token bytes.now (views.token_notes self.old)) }
    {
        let mut notes = or_none(alloc, self.notes.remove(&token));
        notes.push(bytes)?;
        self.notes.insert(token, notes)?;
        Ok(())
    }
}

/// The comments of a file.
#[derive(Drop)]
pub struct Notes<'a> {
    before: TokenNotes<'a>,
    at_end: TokenNotes<'a>,
    at_section: TokenNotes<'a>,
    last: List<&'a [u8]>,
}

impl<'a> Notes<'a> {
    /// No comments.
    pub fn new(alloc: Global) -> Notes<'a>
        ensures { views.notes_of result ≡ (λ anchor. []) }
    {
        Notes {
            before: TokenNotes::new(alloc),
            at_end: TokenNotes::new(alloc),
            at_section: TokenNotes::new(alloc),
            last: List::new(alloc),
        }
    }

    /// The comments of a place, in order; `None` where there are none.
    pub fn at(&self, anchor: Anchor) -> Option<&List<&'a [u8]>>
        ensures { views.notes_in (option_copied result) ≡ views.notes_of self.now anchor }
    {
        match anchor {
            Anchor::Before(token) => self.before.at(token),
            Anchor::AtEnd(token) => self.at_end.at(token),
            Anchor::AtSection(token) => self.at_section.at(token),
            Anchor::Last => Some(&self.last),
        }
    }

    /// Puts a comment behind those of its place.
    pub fn push(&mut self, alloc: Global, anchor: Anchor, bytes: &'a [u8]) -> Result<(), Memory>
        ensures { OnOk result (views.notes_of self.new ≡ spec.with_note anchor bytes.now (views.notes_of self.old)) }
    {
        match anchor {
            Anchor::Before(token) => self.before.push(alloc, token, bytes),
            Anchor::AtEnd(token) => self.at_end.push(alloc, token, bytes),
            Anchor::AtSection(token) => self.at_section.push(alloc, token, bytes),
            Anchor::Last => self.last.push(bytes),
        }
    }
}
