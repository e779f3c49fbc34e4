//! The target set of a forked request as a tree of branches: a branch that a 3xx redirected has its contacts below it,
//! and each subtree has its best stored answer and its count of branches that have not ended. Of a call it says which
//! branches may start next, and which stored answer would go up (RFC 3261 sections 16.5 to 16.7).
#![tactic(auto)]

mod build;
mod new_row;
mod new_rows;
mod node;
mod place;
mod row;
mod series;
mod subtree;
mod summary;
mod tree;

pub use new_row::NewRow;
pub use new_rows::NewRows;
pub use node::Node;
pub use row::{End, RowRef, State};
pub use summary::BestRef;
pub use tree::ForkTree;
