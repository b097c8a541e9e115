use crate::work::Work;
use c_types::List;

/// Work that comes before that of another level, by its number from 1; 0 where none is below.
#[derive(Clone, Copy)]
pub struct Level<'a> {
    pub work: Work<'a>,
    pub below: usize,
}

/// Where the labels of a function stand: for each label, by its number, the level from which its
/// tasks go on; 0 where there is no such label.
#[derive(Drop)]
pub struct Labels<'a> {
    pub levels: List<Level<'a>>,
    pub starts: List<usize>,
}
