//! A tenant's work: its chain as places, which are its stages, its groups, and groups in these.
//!
//! The crate stands on `chain_nodes` for places, and on `stage_row`, `stage_path` and `window_stage` for paths. What
//! a chain means is defined in `tenant_spec`, module `ChainPlan`; what is built of it, in `specs/`. The contract of
//! `TenantWork::of_chain` carries the promise: the work follows the plan of its chain, and keeps the contracts of
//! `ChainWork` and `NewWork`.
#![tactic(auto)]

mod below;
mod groups;
mod need;
mod path;
mod paths;
mod places;
mod plain;
mod root;
mod sent;
mod tree_work;

pub use below::{LeafPlace, build_leaf};
pub use groups::build_group;
pub use need::{Need, need_of};
pub use path::{ChainPath, TenantWork};
pub use paths::{Site, StagesPath};
pub use places::{GroupPlace, RootPlace};
pub use root::build_root;
pub use tree_work::TreeWork;
pub use work_core::{ChainWork, NewWork, Returned, WorkResult, join_outputs};
