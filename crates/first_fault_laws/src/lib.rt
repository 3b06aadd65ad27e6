//! That the outcome of a policy tells its first fault, over all rows of faults in their order, and that it is what is written for the policy just where no
//! row holds. `specs/Whole` joins the rows.
//! The functions here do nothing: each has a law as its contract.
#![tactic(auto)]

mod outcome;
mod rows;

pub use outcome::{
    outcome_is_accepted, outcome_is_first_fault, outcome_is_its_own, outcome_is_told,
    outcome_is_written, outcome_past_preparations,
};
pub use rows::{
    first_fault_of_policies, first_fault_of_preparations, first_faults_of_all_rows, first_lines,
};
