// What a call says of its input, also of one that does not tell what it has left.
ghost use Rattle.std.specs.Prelude.{◌≡◌, ◌++◌, true, false, ℕ, List, [], None};
ghost use Rattle.std.specs.List.{list_any};
ghost use Rattle.std.specs.Io.KnownBytes.{Appends};
ghost use Rattle.std.specs.declared.option.Option.{Option};
ghost use Rattle.commands.specs.Equations.Front.{is_line_end};
ghost use Rattle.io_edge.specs.Told.{Told, rest_of};
ghost use Rattle.spiral_main.specs.Outcome.{AccountsFor};
ghost use Rattle.spiral_words.specs.Asked.{IsAsked};
ghost use Rattle.spiral_words.specs.declared.Command.TheVariants.{ByRequest};
ghost use Rattle.spiral_words.specs.declared.RequestCommand.{RequestCommand as SpecCommand};
ghost use Rattle.spiral_words.specs.declared.statuses.status.Status.TheVariants.{Success, ReadFault};

/// No command for a request succeeds before an input that does not tell what it has left, as standard input, has given
/// a whole line in the call, or has said that it ends.
pub fn lines_have_come()
    ensures { (words : List (List ℕ)) (command : SpecCommand) (input input' : Told) (before after : Option (List ℕ))
        (bytes : List ℕ) → IsAsked words (ByRequest command) → rest_of input' ≡ None
        → AccountsFor words input input' before after Success
        → input'.given ≡ input.given ++ bytes → list_any is_line_end bytes ≡ true }
{}

/// A read that fails in the first line leaves no output: the bytes that were given have no line end, and the input has
/// not said that it ends. So `trace` writes no listing there.
pub fn open_lines_leave_nothing()
    ensures { (words : List (List ℕ)) (command : SpecCommand) (input input' : Told) (before after : Option (List ℕ))
        (bytes : List ℕ) → IsAsked words (ByRequest command)
        → AccountsFor words input input' before after ReadFault
        → input'.given ≡ input.given ++ bytes → list_any is_line_end bytes ≡ false → input'.ended ≡ false
        → Appends before after [] }
{}
