ghost use Rattle.std.specs.Prelude.{◌≡◌, ◌≤◌, ◌<◌, ◌+◌, ◌++◌, ◌∷◌, [], length, IfOk, OnOk, OnErr, slice_get, take, drop, vec_len, vec_capacity};
ghost use Rattle.c_tree.specs.Join.{guarded, Holds};
ghost use Rattle.c_tree.specs.Outward.{rest_guarded, section_guarded, later_guarded, sections_left};
ghost use Rattle.c_tree.specs.Paths.{list_of, with_list};
ghost use Rattle.outward_moves.specs.Fallen.{fallen, fallen_later};

use crate::leaving::guard_rest;
use c_tree::{Item, Section, Test};
use c_types::{List, Memory};
use std::alloc::Global;
use std::mem;

/// Puts a list under the guard, in a `Vec` that has room for the `if`.
fn wrap(alloc: Global, list: List<Item>, label: u32, mut room: Vec<Item>) -> List<Item>
    requires empty { room.items ≡ [] }
    requires room { 1 ≤ vec_capacity room }
    ensures { result ≡ guarded label list }
{
    if list.is_empty() {
        return list;
    }
    match room.push(Item::If(Test::Off(label), list, List::new(alloc))) {
        Ok(()) => List::from_vec(room),
        Err(_) => unreachable!(),
    }
}

fn wrap_section(alloc: Global, section: &mut Section, label: u32, room: Vec<Item>)
    requires empty { room.items ≡ [] }
    requires room { 1 ≤ vec_capacity room }
    ensures { section.new ≡ section_guarded label section.old }
{
    let list = mem::replace(&mut section.list, List::new(alloc));
    section.list = wrap(alloc, list, label, room);
}

/// An empty `Vec` with room for one item.
#[derive(Drop)]
pub struct Room {
    items: Vec<Item>,
    ghost empty: { vec_len items ≡ 0 },
    ghost room: { 1 ≤ vec_capacity items },
}

/// So many of them.
pub fn make_rooms(alloc: Global, n: usize) -> Result<Vec<Room>, Memory>
    ensures { IfOk result (λ v. vec_len v ≡ n) }
{
    let mut rooms = Vec::new(alloc);
    for _i in 0..n {
        let items = Vec::with_capacity(alloc, 1)?;
        rooms.push(Room { items })?;
    }
    Ok(rooms)
}

/// How many sections are fallen into from the place `from` on: up to and including the first that
/// has an end.
fn count_fallen(sections: &[Section], from: usize) -> usize
    requires { from ≤ length sections.now }
    ensures { result ≡ fallen (drop from sections.now) }
{
    let mut n = 0;
    for k in from..sections.len() {
        n += 1;
        if sections[k].ends {
            return n;
        }
    }
    n
}

/// How many sections are fallen into after the section at the place.
pub fn count_later(sections: &[Section], at: usize) -> usize
    ensures { result ≡ fallen_later (drop at sections.now) }
{
    if at >= sections.len() || sections[at].ends {
        return 0;
    }
    count_fallen(sections, at + 1)
}

/// Puts the lists of the sections that are fallen into from the place `from` on under the guard.
fn guard_later(
    alloc: Global,
    sections: &mut List<Section>,
    from: usize,
    label: u32,
    rooms: &mut Vec<Room>,
)
    requires within { from ≤ length sections.old }
    requires enough { fallen (drop from sections.old) ≤ vec_len rooms.old }
    ensures { sections.new ≡ take from sections.old ++ later_guarded label (drop from sections.old) }
{
    let n = sections.len();
    for k in from..n {
        let Some(room) = rooms.pop() else {
            unreachable!();
        };
        let Room { items } = room;
        let section = sections.at_mut(k);
        let ends = section.ends;
        wrap_section(alloc, section, label, items);
        if ends {
            return;
        }
    }
}

fn guard_first(alloc: Global, section: &mut Section, leap: usize, label: u32) -> Result<(), Memory>
    requires { leap < length (list_of section.old) }
    ensures ok { OnOk result (section.new ≡ with_list (rest_guarded label leap (list_of section.old)) section.old) }
    ensures err { OnErr result (section.new ≡ section.old) }
{
    guard_rest(alloc, &mut section.list, leap, label)
}

/// The sections after the Leap at the place `leap` of the section k has gone out.
pub fn leave_section(
    alloc: Global,
    sections: &mut List<Section>,
    k: u32,
    leap: usize,
    label: u32,
    rooms: &mut Vec<Room>,
) -> Result<(), Memory>
    requires in_bounds { Holds (λ c. leap < length (list_of c)) (slice_get sections.old k) }
    requires enough { fallen_later (drop k sections.old) ≤ vec_len rooms.old }
    ensures ok { OnOk result (sections.new ≡ take k sections.old ++ sections_left label leap (drop k sections.old)) }
    ensures err { OnErr result (sections.new ≡ sections.old) }
{
    let section = sections.at_mut(k as usize);
    let ends = section.ends;
    match guard_first(alloc, section, leap, label) {
        Ok(()) => {}
        Err(refused) => return Err(refused),
    }
    if !ends {
        guard_later(alloc, sections, k as usize + 1, label, rooms);
    }
    Ok(())
}
