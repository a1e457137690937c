// What each command answers: an outcome of words that name it is an answer of its equation. A law cites no other
// command's definitions.
ghost use Rattle.std.specs.Prelude.{ℕ, true, false, List, Ok, ◌↔◌, codes};
ghost use Rattle.schedules.specs.Schedule.{Plan as SpecSchedule};
ghost use Rattle.commands.specs.Equations.Apply.{apply_answer};
ghost use Rattle.commands.specs.Equations.Commands.{outcomes_of};
ghost use Rattle.commands.specs.Equations.Convolve.{convolve_answer};
ghost use Rattle.commands.specs.Equations.Cert.{cert_answer};
ghost use Rattle.commands.specs.Equations.Check.{check_answer};
ghost use Rattle.commands.specs.Equations.Exec.{exec_answer};
ghost use Rattle.commands.specs.Equations.Formula.{formula_answer};
ghost use Rattle.c_print.specs.CText.{c_text_of};
ghost use Rattle.commands.specs.Equations.Convolutions.{conv_planned};
ghost use Rattle.commands.specs.Equations.Formulas.{written};
ghost use Rattle.commands.specs.Equations.Front.{line, ordered};
ghost use Rattle.commands.specs.Equations.Orders.{Planned, planned};
ghost use Rattle.commands.specs.Formulas.Code.{IsCodeOf};
ghost use Rattle.listing_text.specs.Listing.{listing_of};
ghost use Rattle.schedules.specs.Turns.{named};
ghost use Rattle.spiral_main.specs.Generator.{OneGenerator};
ghost use Rattle.spiral_main.specs.OneText.{CompilesOne, ConvolvesByOne, PrintsOne, TracesOne};
ghost use Rattle.spiral_main.specs.Good.{IsGoodFor, IsLeanFor, Prints, Shows, ShowsConvolver, Traces, vectors_read};
ghost use Rattle.spiral_main.specs.Traced.{EndsWithResults};
ghost use Rattle.spiral_main.specs.RightFront.{IsRightConvLine, IsRightFormulaLine, IsRightLine};
ghost use Rattle.spl_ast.specs.Formula.{Formula};
ghost use Rattle.spiral_main.specs.Outcome.{IsOutcome};
ghost use Rattle.commands.specs.Equations.Plan.{plan_answer};
ghost use Rattle.commands.specs.Equations.Run.{run_answer};
ghost use Rattle.commands.specs.Equations.Sample.{sample_answer};
ghost use Rattle.spiral_words.specs.declared.statuses.status.Status.{Status as SpecStatus};
ghost use Rattle.spiral_words.specs.Asked.{AsksCode, AsksModulus, AsksOrder, AsksSchedule, AsksSeed, IsAsked};
ghost use Rattle.spiral_words.specs.CommandLine.{Names, Options};
ghost use Rattle.spiral_words.specs.declared.Command.{Command as SpecCommand};
ghost use Rattle.spiral_words.specs.declared.Order.{Order as SpecOrder};

/// What is right for the command that the words ask for is an outcome.
pub fn answers_are_outcomes()
    ensures { (words : List (List ℕ)) (bytes : List ℕ) (wanted : SpecCommand)
        (status : SpecStatus) (text : List ℕ) → IsAsked words wanted
        → (outcomes_of wanted).answer bytes status text → IsOutcome words bytes status text }
{}

/// One generator has all programs that the commands write: what they do is known, and what each command answers.
pub fn one_generator()
    ensures { OneGenerator }
{}

/// What `plan` answers.
pub fn plan_answers()
    ensures { (words : List (List ℕ)) (options : Options) (bytes : List ℕ)
        (status : SpecStatus) (text : List ℕ) → Names words (codes "plan") options
        → IsOutcome words bytes status text → plan_answer bytes status text }
{}

/// What `formula` answers.
pub fn formula_answers()
    ensures { (words : List (List ℕ)) (options : Options) (bytes : List ℕ)
        (status : SpecStatus) (text : List ℕ) → Names words (codes "formula") options
        → IsOutcome words bytes status text → formula_answer bytes status text }
{}

/// What `code` answers: there is one program for each request and tree, and its listing is the text.
pub fn code_answers()
    ensures { PrintsOne (codes "code") listing_of }
{}

/// What `c` answers: the same with the program's C text.
pub fn c_answers()
    ensures { PrintsOne (codes "c") c_text_of }
{}

/// What `run` answers.
pub fn run_answers()
    ensures { (order : SpecOrder) (words : List (List ℕ)) (options : Options) (bytes : List ℕ)
        (status : SpecStatus) (text : List ℕ) → Names words (codes "run") options → AsksOrder options order
        → IsOutcome words bytes status text → run_answer order bytes status text }
{}

/// What `trace` answers: the same with the program's listing and runs.
pub fn trace_answers()
    ensures { TracesOne }
{}

/// What `cert` answers.
pub fn cert_answers()
    ensures { (words : List (List ℕ)) (options : Options) (bytes : List ℕ)
        (status : SpecStatus) (text : List ℕ) → Names words (codes "cert") options
        → IsOutcome words bytes status text → cert_answer bytes status text }
{}

/// What `check` answers.
pub fn check_answers()
    ensures { (words : List (List ℕ)) (options : Options) (bytes : List ℕ)
        (status : SpecStatus) (text : List ℕ) → Names words (codes "check") options
        → IsOutcome words bytes status text → check_answer bytes status text }
{}

/// What `sample` answers.
pub fn sample_answers()
    ensures { (seed : ℕ) (schedule : SpecSchedule) (words : List (List ℕ)) (options : Options) (bytes : List ℕ)
        (status : SpecStatus) (text : List ℕ)
        → Names words (codes "sample") options → AsksSeed options seed → AsksSchedule options schedule
        → IsOutcome words bytes status text → sample_answer seed schedule bytes status text }
{}

/// What `compile` answers: there is one program for each formula, and its listing is the text.
pub fn compile_answers()
    ensures { CompilesOne }
{}

/// What `apply` answers.
pub fn apply_answers()
    ensures { (m : ℕ) (schedule : SpecSchedule) (words : List (List ℕ)) (options : Options) (bytes : List ℕ)
        (status : SpecStatus) (text : List ℕ) → Names words (codes "apply") options → AsksModulus options m
        → AsksSchedule options schedule
        → IsOutcome words bytes status text → apply_answer m schedule bytes status text }
{}

/// What `exec` answers.
pub fn exec_answers()
    ensures { (schedule : SpecSchedule) (words : List (List ℕ)) (options : Options) (bytes : List ℕ)
        (status : SpecStatus) (text : List ℕ) → Names words (codes "exec") options → AsksSchedule options schedule
        → IsOutcome words bytes status text → exec_answer schedule bytes status text }
{}

/// What `convolve` answers.
pub fn convolve_answers()
    ensures { (schedule : SpecSchedule) (words : List (List ℕ)) (options : Options) (bytes : List ℕ)
        (status : SpecStatus) (text : List ℕ) → Names words (codes "convolve") options → AsksSchedule options schedule
        → AsksCode options false
        → IsOutcome words bytes status text → convolve_answer schedule bytes status text }
{}

/// What `convolve --code` answers: there is one program for each request, tree and first vector, and its listing is the
/// text.
pub fn convolver_answers()
    ensures { ConvolvesByOne }
{}

/// The listing that `code` prints for a right line is that of a program that is good for the line's request.
pub fn code_is_good()
    ensures { Prints (codes "code") listing_of IsGoodFor }
{}

/// And it executes exactly the operations of the tree that is chosen for the request, loads and stores what the tree
/// does, pass by pass, and stands within the limits of listings.
pub fn code_is_lean()
    ensures { Prints (codes "code") listing_of IsLeanFor }
{}

/// The same of a C text that `c` prints.
pub fn c_is_good()
    ensures { Prints (codes "c") c_text_of IsGoodFor }
{}

/// And its program, too, does exactly what the tree does.
pub fn c_is_lean()
    ensures { Prints (codes "c") c_text_of IsLeanFor }
{}

/// The same of the listing that `trace` prints and runs.
pub fn trace_is_good()
    ensures { Traces IsGoodFor }
{}

/// And its program, too, does exactly what the tree does.
pub fn trace_is_lean()
    ensures { Traces IsLeanFor }
{}

/// In every order, also with store buffers, the lines of a vector's run end with the line of the matrix times it.
pub fn trace_gives_results()
    ensures { Traces EndsWithResults }
{}

/// The listing that `compile` prints for a right line is that of code of the line's formula.
pub fn compile_is_good()
    ensures { (m : ℕ) (words : List (List ℕ)) (options : Options) (bytes : List ℕ) (status : SpecStatus)
        (text : List ℕ) (formula : Formula) → Names words (codes "compile") options → AsksModulus options m
        → IsRightFormulaLine bytes formula → IsOutcome words bytes status text
        → Shows listing_of (IsCodeOf m formula) text }
{}

/// The listing that `convolve --code` prints for a right line is that of a program that convolves with the list.
pub fn convolver_is_good()
    ensures { (schedule : SpecSchedule) (words : List (List ℕ)) (options : Options) (bytes : List ℕ)
        (status : SpecStatus) (text : List ℕ) (plan : Planned) → Names words (codes "convolve") options
        → AsksSchedule options schedule → AsksCode options true
        → IsRightConvLine (named schedule) bytes plan → IsOutcome words bytes status text
        → ShowsConvolver plan (vectors_read plan bytes) text }
{}

/// A line is right exactly where it orders what it is right for. So the laws on good programs and those on answers
/// speak of the same calls.
pub fn right_lines_are_ordered()
    ensures requests { (names bytes : List ℕ) (plan : Planned) →
        IsRightLine names bytes plan ↔ ordered (line 256) (planned names) bytes (Ok plan) }
    ensures lists { (names bytes : List ℕ) (plan : Planned) →
        IsRightConvLine names bytes plan ↔ ordered (line 256) (conv_planned names) bytes (Ok plan) }
    ensures formulas { (bytes : List ℕ) (formula : Formula) →
        IsRightFormulaLine bytes formula ↔ ordered (line 65536) written bytes (Ok formula) }
{}
