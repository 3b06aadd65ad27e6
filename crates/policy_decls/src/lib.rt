//! What the declarations of a policy say: the names that they give and use, the policy that they
//! mean, and what must not stand in them. Definitions alone, over the plain twins of the trees
//! (`spoc_ast`) and over the plain policy (`policy_model`).
#![tactic(auto)]
