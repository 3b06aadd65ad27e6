//! What a policy compiles to, as definitions alone: the files of its managed routers and the counts
//! of the summary, or the line of its first fault (`specs/Outcome`); the files by the lists of the
//! interfaces (`specs/Files`); and what is claimed of each policy that is compiled (`specs/Exact`).
#![tactic(auto)]
