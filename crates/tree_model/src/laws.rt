// Laws of the trees of requests.
ghost use Rattle.tree_model.specs.Laws.{FlatTrees, FlatCosts, WholeOfOne, ChosenOfOne, LeastOfOne, WholeOfParts, ChosenOfParts, LeastOfParts, NodesDoWhatIsAsked, PassesDoTheCost};

/// The trees of requests, by those of one size: which trees a request admits, which of them is chosen, and the least
/// cost.
pub fn trees_are_made_of_parts()
    ensures flat_trees { FlatTrees }
    ensures flat_costs { FlatCosts }
    ensures whole_of_one { WholeOfOne }
    ensures chosen_of_one { ChosenOfOne }
    ensures least_of_one { LeastOfOne }
    ensures whole_of_parts { WholeOfParts }
    ensures chosen_of_parts { ChosenOfParts }
    ensures least_of_parts { LeastOfParts }
{}

/// A tree of a request does what the request asks for.
pub fn nodes_do_what_is_asked()
    ensures { NodesDoWhatIsAsked }
{}

/// The passes of a tree do its operations.
pub fn passes_do_the_cost()
    ensures { PassesDoTheCost }
{}
