//! Plans: an expression cut into steps, which run on the workers of a pool. Inside another
//! expression, an operation that combines values is a step of its own, as in Eigen a reduction or a
//! contraction is.
//!
//! A [`Plan`] has the steps of an expression, children first. The steps are each reduction,
//! contraction, convolution, take and operation along an axis, each operand of these that isn't an
//! input, and the root. A node that is several of these is one step. Operands that occur twice are
//! not shared. The expression of a step names an input by its number, and the tensor of an earlier
//! step by the number of inputs plus the step's place.
//!
//! [`run_plan`] runs a plan, and [`run_plan_until`] runs it to its end or to a [`Deadline`]. A step
//! may be fused into the step that reads it. A [`StepKernel`] computes the values of a step by
//! ranges of places. [`Shards`] are ranges of the index lists that contribute to a value.
//!
//! Which nodes are steps is defined in specs/Steps, what a plan gives in specs/Plan: tensor_runner
//! relies on both. Choices that only cost time are all made in `schedule`.
#![tactic(auto)]

mod cutting;
mod deadline;
mod laws;
mod plan;
mod running;
mod schedule;
mod shards;
mod step;

pub use deadline::{Deadline, NoClock};
pub use laws::{
    reducers_combine_in_any_grouping, shards_give_the_contraction, shards_give_the_reduction,
    shards_meet_each_index_list_once,
};
pub use parallel_for::{ForFault, Kernel, PoolFault, Setup};
pub use plan::Plan;
pub use running::step_kernel::StepKernel;
pub use running::{PlanRun, run_plan, run_plan_until};
pub use schedule::readers::reads;
pub use shards::Shards;
pub use step::Step;
pub use tensor_ops::{Dims, Expr, Inputs, Reducer, Tensor};
