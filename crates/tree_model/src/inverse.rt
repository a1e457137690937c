// Trees by the root and by the inverse root.
ghost use Rattle.tree_model.specs.Inverses.{InverseAdmits, InverseCosts, InverseLoads, InverseStores};

/// The request for the transform by the inverse root admits the same trees, which cost, load and store the same: a law of
/// the definitions.
#[tactic(auto, using(crate::proofs::InverseTrees::inverse_admits, crate::proofs::InverseCosts::inverse_costs, crate::proofs::InverseTraffic::inverse_loads, crate::proofs::InverseTraffic::inverse_stores))]
pub fn inverse_trees()
    ensures admits { InverseAdmits }
    ensures costs { InverseCosts }
    ensures loads { InverseLoads }
    ensures stores { InverseStores }
{}
