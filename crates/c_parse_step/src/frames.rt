//! The stack of what is awaited.

ghost use Rattle.std.specs.Prelude.{◌≡◌, [], MatchOption, OnOk};
ghost use Rattle.c_parse_step.specs.Shown.{shown};

use crate::entry::Entry;
use c_types::{Memory, Stack};
use std::alloc::Global;
use std::marker::Model;

/// The stack of what is awaited, which contracts see as its frames from the top on.
#[derive(Drop)]
pub struct FrameStack {
    entries: Stack<Entry>,
}

impl Model for FrameStack {
    ghost use Rattle.std.specs.Prelude.{List};
    ghost use Rattle.c_parse_step.specs.declared.frame.Frame.{Frame};
    ghost use Rattle.c_parse_step.specs.contracts.frame.Frame as frame;
    ghost use Rattle.std.specs.Coded.{coded_list, codes};

    ghost Value = { List Frame };

    ghost coded = { coded_list (Prim.hlevel (codes, frame.the_row.coded)) };

    ghost use Rattle.c_parse_step.specs.Shown.{frames_of};

    ghost view = { λ it. frames_of it.entries };
}

impl FrameStack {
    /// The empty stack, which has no room yet.
    pub fn new(alloc: Global) -> FrameStack
        ensures { result ≡ [] }
    {
        FrameStack {
            entries: Stack::new(alloc),
        }
    }

    /// Takes off what was put there last.
    pub fn pop(&mut self) -> Option<Entry>
        ensures { MatchOption result ((self.old ≡ []) × (self.new ≡ [])) (λ top. self.old ≡ shown top self.new) }
    {
        self.entries.pop()
    }

    /// Puts frames on top.
    pub fn push(&mut self, entry: Entry) -> Result<(), Memory>
        ensures { OnOk result (self.new ≡ shown entry self.old) }
    {
        self.entries.push(entry)
    }
}
