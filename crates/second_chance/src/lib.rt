//! The page cache as a machine over lists, and what each of its pushes takes.
#![tactic(auto)]

mod frame;
mod laws;
mod places;
mod plan;
mod rows;

pub use frame::Frame;
pub use laws::{
    flushes_save_all, lines_push_few, plans_are_pushes, second_chances_stand, work_pushes_few,
};
pub use places::Places;
pub use plan::{
    Plan, PoolMark, PushPolicy, plan_evict, plan_evict_taking, plan_flush, plan_flush_taking,
};
pub use rows::{rows_of_second_chances, rows_of_the_plain_machine};
