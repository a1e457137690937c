//! The program: words and an input to an output, a note and a status.
#![tactic(auto)]

ghost use Rattle.std.specs.Prelude.{◌≡◌, ◌≢◌, ◌⊎◌, Bool, ℕ, List, Ok, Some};
ghost use Rattle.std.specs.declared.option.Option.{Option};
ghost use Rattle.commands.specs.Planned.{IsPlanned};
ghost use Rattle.io_edge.specs.Told.{Told, rest_of};
ghost use Rattle.matrix_meaning.specs.Valid.{IsInRange, IsValid};
ghost use Rattle.matrix_meaning.specs.declared.Request.{Request as SpecRequest};
ghost use Rattle.spiral_words.specs.declared.statuses.status.Status.{Status as SpecStatus};
ghost use Rattle.spiral_words.specs.declared.statuses.status.Status.TheVariants.{ReadFault, WriteFault, NoMemory};
ghost use Rattle.spiral_main.specs.Outcome.{Accounts, AccountsFor, IsOutcome};
ghost use Rattle.spiral_main.specs.Right.{IsRightCall, IsWithinBudget, Succeeds};
ghost use Rattle.spiral_main.specs.FormulaTheorem.{FormulasAreRight};
ghost use Rattle.spiral_main.specs.Theorem.{TheProgramIsRight};
ghost use Rattle.tree_model.specs.Breakdown.{Breakdown};
ghost use Rattle.tree_model.specs.Chosen.{CanDivideWhole};

pub mod answers;
pub mod inputs;
pub mod letters;
pub mod rights;
mod run;

pub use run::spiral_run;
pub use runs::{StreamFault, run_stream};
pub use spiral_words::{Command, Status};

/// The theorem of the program: for a right request `code` prints the listing of one program, which computes what is asked
/// for under every order of turns, also with store buffers, shares no line, and does what the cheapest tree does in equal
/// shares; and `run` writes the matrix times each vector.
pub fn the_program_is_right()
    ensures { TheProgramIsRight }
{}

/// The theorem of the program for formulas and convolutions: `compile` and `convolve --code` print the listing of one
/// program, which leaves what is asked for under every order of turns, also with store buffers, in the operations that
/// are counted; `apply` and `convolve` write it for each vector.
pub fn formulas_are_right()
    ensures { FormulasAreRight }
{}

/// The words and the bytes of a call determine its status.
pub fn calls_have_one_status()
    ensures { (words : List (List ℕ)) (bytes : List ℕ) (a b : SpecStatus) (s t : List ℕ) →
        IsOutcome words bytes a s → IsOutcome words bytes b t → a ≡ b }
{}

/// The words and the bytes of a call determine its text.
pub fn calls_have_one_text()
    ensures { (words : List (List ℕ)) (bytes : List ℕ) (a b : SpecStatus) (s t : List ℕ) →
        IsOutcome words bytes a s → IsOutcome words bytes b t → s ≡ t }
{}

/// Of an input that tells its bytes, these and the words account for the status and the output, and the input tells
/// what is left of them.
pub fn told_inputs_are_accounted_for()
    ensures { (words : List (List ℕ)) (bytes : List ℕ) (input input' : Told) (before after : Option (List ℕ))
        (status : SpecStatus) → rest_of input ≡ Some bytes
        → AccountsFor words input input' before after status
        → (rest : List ℕ) × (rest_of input' ≡ Some rest) × Accounts words bytes rest input'.ended before after status }
{}

/// A call that is right in all that is asked of it succeeds with the text that its words and bytes call for, unless a
/// read or a write fails or memory runs out.
pub fn right_calls_succeed()
    ensures { (words : List (List ℕ)) (bytes left : List ℕ) (ended : Bool) (before after : Option (List ℕ))
        (status : SpecStatus) → IsRightCall words bytes
        → Accounts words bytes left ended before after status
        → status ≢ ReadFault → status ≢ WriteFault
        → (status ≡ NoMemory) ⊎ Succeeds words bytes before after status }
{}

/// What a right call asks of a request is no more than that it has a plan: a request in range that has one is valid,
/// admits a tree, and its least cost is within the budget.
pub fn planned_requests_are_right()
    ensures { (request : SpecRequest) (tree : Breakdown) → IsInRange request → IsPlanned request (Ok tree)
        → IsValid request × CanDivideWhole request × IsWithinBudget request }
{}

/// Each call has an outcome.
pub fn calls_have_an_outcome()
    ensures { (words : List (List ℕ)) (bytes : List ℕ)
        → (status : SpecStatus) × (text : List ℕ) × IsOutcome words bytes status text }
{}
