ghost use Rattle.std.specs.Prelude.{◌≡◌, ◌&&◌, not};
ghost use Rattle.c_tree.specs.declared.tree.Section.{out-Section};
ghost use Rattle.plain_laws.specs.Plain.{is_break as the_is_break, last_is_break as the_last_is_break, ended as the_ended};

use c_tree::{Item, Section};

fn is_break(item: &Item) -> bool
    ensures { result ≡ the_is_break item.now }
{
    match item {
        Item::Break => true,
        _ => false,
    }
}

fn last_is_break(items: &[Item]) -> bool
    ensures { result ≡ the_last_is_break items.now }
{
    let end = items.len();
    end > 0 && is_break(&items[end - 1])
}

/// Whether a section has no end and its last item is `break`.
fn takes_end(section: &Section) -> bool
    ensures { result ≡ (not (out-Section section.now).ends && the_last_is_break (out-Section section.now).list) }
{
    !section.ends && last_is_break(section.list.as_slice())
}

/// Gives a section its end in the place of a last `break`, if it has no end.
pub fn end(section: &mut Section)
    ensures { section.new ≡ the_ended (out-Section section.old) }
{
    if takes_end(section) {
        drop(section.list.pop());
        section.ends = true;
    }
}
