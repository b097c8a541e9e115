//! What a call of a program that is run by steps has still to do, and what each task does.
#![tactic(auto)]

mod acting;
mod added;
mod call;
mod expressions;
mod gathering;
mod guards;
mod items;
mod jumps;
mod labels;
mod operate;
mod pending;
mod search;
mod stored;
mod table;
mod tests_asked;
mod upcoming;
mod work;

pub use acting::{act, control, is_control};
pub use call::Call;
pub use expressions::{compute, find};
pub use gathering::labels_of;
pub use items::{branch, head, loop_end, run_item, turn};
pub use jumps::{cut, enter};
pub use labels::{Labels, Level};
pub use operate::{
    Done, and_then, apply_binary, apply_unary, convert_top, decide, fetch, index, judge, load,
    or_else,
};
pub use pending::{integer, leave_number, take, take_number};
pub use stored::{assign, count, set};
pub use tests_asked::{arm, ask, ask_selector};
pub use upcoming::{drops_next, next_task};
pub use work::{Stage, Task, Tasks, Use, Values, Work};
