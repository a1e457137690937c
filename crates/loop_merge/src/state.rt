// States of merging. Terms are merged in the order in which they are applied. A permutation has no pass of its own: it waits as a
// gather, until a loop comes that loads by it, or goes into the stores of the pass before.
use index_fn::Index;
use sigma_spl::Nest;

/// The gathers that wait and the passes so far, in their order.
#[derive(Drop)]
pub struct Merging {
    pub waiting: Vec<Index>,
    pub passes: Vec<Vec<Nest>>,
}
