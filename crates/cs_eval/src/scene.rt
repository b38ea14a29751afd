//! Where expressions are evaluated.
use cs_eval_values::LentView;
use cs_lang::ContractTree;
use std::alloc::Global;

/// The contract whose check runs, and what it looks at.
#[derive(Clone, Copy)]
pub struct Scene<'s, 'a> {
    pub alloc: Global,
    pub contract: &'a ContractTree,
    pub view: &'s LentView<'a>,
}
