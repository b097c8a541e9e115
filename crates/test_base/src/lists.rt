//! Lists, names, boxes and stacks.

use c_types::{Boxed, List, Memory, Name, Stack};
use std::alloc::Global;

fn is_list(alloc: Global, list: &List<u8>, items: &[u8]) -> Result<bool, Memory> {
    let other = List::from_slice(alloc, items)?;
    let same = *list == other;
    drop(other);
    Ok(same)
}

fn holds_three(list: &List<u8>) -> bool {
    list.as_slice() == [5, 6, 7].as_slice() && list.get(3).is_none()
}

fn grows(alloc: Global, list: &mut List<u8>) -> Result<bool, Memory> {
    list.push(7)?;
    let same = is_list(alloc, list, &[5, 6, 7])?;
    let is_empty = is_list(alloc, list, &[])?;
    Ok(same && !is_empty && holds_three(list))
}

fn keeps_lists(alloc: Global) -> Result<bool, Memory> {
    let mut list = List::from_slice(alloc, &[5, 6])?;
    let met = grows(alloc, &mut list);
    drop(list);
    met
}

fn is_copied(alloc: Global, name: &Name) -> Result<bool, Memory> {
    let copy = name.copy(alloc)?;
    let same = *name == copy;
    drop(copy);
    Ok(same)
}

fn keeps_names(alloc: Global) -> Result<bool, Memory> {
    let name = Name::from_string(String::from_str(alloc, "ab")?);
    let met = is_copied(alloc, &name);
    drop(name);
    met
}

fn is_set(alloc: Global, boxed: &mut Boxed<u8>) -> Result<bool, Memory> {
    boxed.set(2);
    let other = Boxed::new(alloc, 2)?;
    let same = *boxed == other;
    drop(other);
    Ok(same)
}

fn keeps_boxes(alloc: Global) -> Result<bool, Memory> {
    let mut boxed = Boxed::new(alloc, 1)?;
    let met = is_set(alloc, &mut boxed);
    drop(boxed);
    met
}

fn grows_and_falls(stack: &mut Stack<u8>) -> Result<bool, Memory> {
    stack.push(1)?;
    stack.push(2)?;
    let is_on_top = stack.top() == Some(&2);
    Ok(is_on_top && stack.pop() == Some(2) && stack.len() == 1)
}

fn keeps_stacks(alloc: Global) -> Result<bool, Memory> {
    let mut stack = Stack::new(alloc);
    let met = grows_and_falls(&mut stack);
    drop(stack);
    met
}

#[test]
fn keeps_what_it_is_given(rt: HostRuntime) {
    assert!(rt; keeps_lists(rt.alloc()) == Ok(true));
    assert!(rt; keeps_names(rt.alloc()) == Ok(true));
    assert!(rt; keeps_boxes(rt.alloc()) == Ok(true));
    assert!(rt; keeps_stacks(rt.alloc()) == Ok(true));
}
