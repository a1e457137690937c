//! Formulas, and trees for processors and lanes, as terms: the same meaning, in as many operations; and laws of the terms
//! of a layout's formula for processors and lanes.
#![tactic(auto)]

mod formula;
mod tree;
mod tree_terms;

ghost use Rattle.sigma_lower.specs.Compiled.{FormulasCompile};
ghost use Rattle.sigma_lower.specs.Merged.{PhasesHaveLoops, SigmaTransforms};
ghost use Rattle.sigma_lower.specs.Merged.{TreesCanLower, TreesCanMerge};
ghost use Rattle.sigma_lower.specs.Order.{TreesOrdered};
ghost use Rattle.sigma_lower.specs.TreeLoops.Limits.{LoopsAreLimited};
ghost use Rattle.sigma_lower.specs.TreeSigmas.{TreesAreSigmas};

pub use formula::lower_formula;
pub use tree::lower;
pub use tree_terms::under;

/// The passes of any formula do what it does, in its operations.
pub fn formulas_compile()
    ensures { FormulasCompile }
{}

/// The terms of a whole do what it does.
pub fn sigma_transforms()
    ensures { SigmaTransforms }
{}

/// The terms of layouts are in order, so their passes are their loops, one by one.
pub fn trees_ordered()
    ensures { TreesOrdered }
{}

/// Each phase of a layout has a loop.
pub fn phases_have_loops()
    ensures { PhasesHaveLoops }
{}

/// No place of a layout's loops is over a limit of programs.
pub fn loops_are_limited()
    ensures { LoopsAreLimited }
{}

/// The terms of a whole can be merged.
pub fn trees_can_merge()
    ensures { TreesCanMerge }
{}

/// The terms of each tree that a request admits can be merged.
pub fn trees_can_lower()
    ensures { TreesCanLower }
{}

/// The terms of each tree that a valid request admits are loops in order, which count as the tree and can be run.
pub fn trees_are_sigmas()
    ensures { TreesAreSigmas }
{}
