// Laws of runs.

ghost use Rattle.runs.specs.Course.{CompletionsAct, EventCompletionsAct};

/// After any list of turns, each of the turns that complete it does an action: of every code, from the
/// start of a run on any input. So a trace says `waits` and `done` in the lines of its schedule alone.
pub fn completions_act()
    ensures { CompletionsAct }
{}

/// With store buffers, after any list of turns and drains, each of the events that complete it does an action or writes a
/// store that waits.
pub fn event_completions_act()
    ensures { EventCompletionsAct }
{}
