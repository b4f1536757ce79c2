//! Whole plans: monitors, pockets, paths and recipes for a topology.
#![tactic(auto)]

mod measures;
mod plans;

pub use plans::{Made, make_plan, make_plan_with, plan_for};
