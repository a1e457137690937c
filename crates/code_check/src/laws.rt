// Laws of the check.

ghost use Rattle.code_check.specs.Laws.{CausesDecide, CausesExclude, MarksDecide, OneCause, PassedFits};

/// A program has at most one cause of refusal but want of memory: none if it passes, and one if it does not. So each
/// refusal comes exactly where it is the cause, and a program passes exactly where there is none. What passes fits and
/// is apart, so every order of turns leaves the same memory.
pub fn causes_are_exclusive()
    ensures one { OneCause }
    ensures none { CausesExclude }
    ensures some { CausesDecide }
    ensures fits { PassedFits }
{}

/// A walk that marks what is known tells the programs that read nothing left over from those that do.
pub fn marks_decide()
    ensures { MarksDecide }
{}
