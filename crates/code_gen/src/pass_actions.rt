// Passes as lists of actions of each processor that shares them, and what these do.
ghost use Rattle.code_gen.specs.PassActions.Laws.{PassesRun};

/// The actions of each pass that can be run leave what the pass makes of its array and change nothing else, in an equal
/// share of the counts that the pass names.
pub fn passes_run()
    ensures { PassesRun }
{}
