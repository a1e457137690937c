// Calls that are right in all that their command asks of them, and what they come to.
ghost use Rattle.std.specs.Prelude.{◌≡◌, ◌≢◌, ◌≤◌, Bool, ℕ, List, [], ◌∷◌, ◌++◌, length, true, false, Ok, codes};
ghost use Rattle.commands.specs.Formulas.Letters as programs;
ghost use Rattle.commands.specs.Emission.Whole.{emission};
ghost use Rattle.c_print.specs.CText.{c_text_of};
ghost use Rattle.listing_text.specs.Listing.{listing_of};
ghost use Rattle.commands.specs.Equations.Formulas.{formed};
ghost use Rattle.icode.specs.Plain.{PlainProgram};
ghost use Rattle.commands.specs.Listings.Listed.{loaded, result_of};
ghost use Rattle.schedules.specs.Schedule.{Plan as SpecSchedule};
ghost use Rattle.schedules.specs.Turns.{named};
ghost use Rattle.commands.specs.Input.Orders.{procs_in};
ghost use Rattle.commands.specs.Equations.Front.{line, part};
ghost use Rattle.commands.specs.Equations.Orders.{Planned};
ghost use Rattle.spiral_main.specs.Outcome.{Accounts, IsOutcome};
ghost use Rattle.spiral_main.specs.RightFront.{HasWholeVectors, IsRightConvLine, IsRightFormulaLine, IsRightLine, request_vectors, vectors_behind};
ghost use Rattle.commands.specs.Equations.Sample.{sample_lines};
ghost use Rattle.commands.specs.Equations.Trace.{run_lines};
ghost use Rattle.spiral_words.specs.declared.statuses.status.Status.TheVariants.{Success, ReadFault, WriteFault, NoMemory};
ghost use Rattle.spiral_words.specs.declared.statuses.status.Status.{Status as SpecStatus};
ghost use Rattle.spiral_words.specs.Asked.{AsksCode, AsksModulus, AsksOrder, AsksSchedule, AsksSeed};
ghost use Rattle.spiral_words.specs.CommandLine.{Names, Options};
ghost use Rattle.spiral_words.specs.declared.Order.{Order as SpecOrder};
ghost use Rattle.spl_ast.specs.Formula as formulas;
ghost use Rattle.spl_ast.specs.Formula.{Formula};
ghost use Rattle.spl_ast.specs.Meaning as meanings;
ghost use Rattle.std.specs.Io.KnownBytes.{Appends};
ghost use Rattle.std.specs.declared.option.Option.{Option};
ghost use Rattle.runs.specs.Stream.{lines};
ghost use Rattle.plan_cert.specs.Table.{IsTableText};
ghost use Rattle.matrix_meaning.specs.Asked.{asked_of};
ghost use Rattle.commands.specs.Equations.Formula.{formula_text};
ghost use Rattle.commands.specs.PlanText.{plan_text};
ghost use Rattle.commands.specs.Checked.{certificate_limit, least_line};
ghost use Rattle.commands.specs.Planned.{IsAdmitted};
ghost use Rattle.commands.specs.Input.Asking.{spelt};
ghost use Rattle.commands.specs.Emission.Whole.{conv_emission};
ghost use Rattle.matrix_meaning.specs.Convolution.{convolution};
ghost use Rattle.matrix_meaning.specs.declared.Request.{Request as SpecRequest};
ghost use Rattle.plan_cert.specs.Verdict.{IsVerdict};
ghost use Rattle.plan_cert.specs.declared.verdict.Verdict.TheVariants.{Least};
ghost use Rattle.spiral_main.specs.Good.{vectors_read};

/// An outcome that is Success is what a call comes to, unless a read or a write fails or memory runs out.
pub fn outcomes_come()
    ensures { (words : List (List ℕ)) (bytes left : List ℕ) (ended : Bool) (before after : Option (List ℕ))
        (status : SpecStatus) (text : List ℕ) → IsOutcome words bytes Success text
        → Accounts words bytes left ended before after status
        → status ≢ ReadFault → status ≢ WriteFault → status ≢ NoMemory
        → (status ≡ Success) × Appends before after text }
{}

/// A right call of `plan` has the outcome Success with the tree that is chosen for the request.
pub fn plan_is_right()
    ensures { (words : List (List ℕ)) (options : Options) (bytes : List ℕ) (plan : Planned)
        → Names words (codes "plan") options → IsRightLine [] bytes plan
        → IsOutcome words bytes Success (plan_text plan.request plan.tree) }
{}

/// A right call of `formula` has the outcome Success with the formula of this tree.
pub fn formula_is_right()
    ensures { (words : List (List ℕ)) (options : Options) (bytes : List ℕ) (plan : Planned)
        → Names words (codes "formula") options → IsRightLine [] bytes plan
        → IsOutcome words bytes Success (formula_text plan) }
{}

/// A right call of `code` has the outcome Success with the listing of the tree's program.
pub fn code_is_right()
    ensures { (words : List (List ℕ)) (options : Options) (bytes : List ℕ) (plan : Planned) →
        Names words (codes "code") options → IsRightLine [] bytes plan
        → IsOutcome words bytes Success (listing_of (emission plan.request plan.tree)) }
{}

/// A right call of `c` has the outcome Success with the C text of the tree's program.
pub fn c_is_right()
    ensures { (words : List (List ℕ)) (options : Options) (bytes : List ℕ) (plan : Planned) →
        Names words (codes "c") options → IsRightLine [] bytes plan
        → IsOutcome words bytes Success (c_text_of (emission plan.request plan.tree)) }
{}

/// A right call of `cert` has the outcome Success with the certificate of the request.
pub fn cert_is_right()
    ensures { (words : List (List ℕ)) (options : Options) (bytes : List ℕ) (plan : Planned) (text : List ℕ) →
        Names words (codes "cert") options → IsRightLine [] bytes plan
        → IsTableText plan.request text
        → IsOutcome words bytes Success text }
{}

/// A right call of `sample` has the outcome Success with the sum and the counts of the seed's vector.
pub fn sample_is_right()
    ensures { (words : List (List ℕ)) (options : Options) (bytes : List ℕ) (seed : ℕ) (schedule : SpecSchedule)
        (plan : Planned) → Names words (codes "sample") options → AsksSeed options seed → AsksSchedule options schedule
        → IsRightLine (named schedule) bytes plan
        → IsOutcome words bytes Success (sample_lines plan seed) }
{}

/// A right call of `run` has the outcome Success with a line for each vector, of the matrix times it.
pub fn run_is_right()
    ensures { (words : List (List ℕ)) (options : Options) (bytes : List ℕ) (order : SpecOrder) (plan : Planned) →
        Names words (codes "run") options → AsksOrder options order → IsRightLine (procs_in order) bytes plan
        → HasWholeVectors (line 256) plan.request.size bytes
        → IsOutcome words bytes Success (lines (asked_of plan.request) (request_vectors plan bytes)) }
{}

/// A right call of `trace` has the outcome Success with the listing and the lines of each vector's run.
pub fn trace_is_right()
    ensures { (words : List (List ℕ)) (options : Options) (bytes : List ℕ) (order : SpecOrder) (plan : Planned) →
        Names words (codes "trace") options → AsksOrder options order → IsRightLine (procs_in order) bytes plan
        → HasWholeVectors (line 256) plan.request.size bytes
        → IsOutcome words bytes Success (listing_of (emission plan.request plan.tree)
        ++ run_lines order plan (request_vectors plan bytes)) }
{}

/// A right call of `compile` has the outcome Success with the listing of the formula's program.
pub fn compile_is_right()
    ensures { (words : List (List ℕ)) (options : Options) (bytes : List ℕ) (m : ℕ) (formula : Formula) →
        Names words (codes "compile") options → AsksModulus options m → IsRightFormulaLine bytes formula
        → IsOutcome words bytes Success (listing_of (programs.program_for m formula)) }
{}

/// A right call of `apply` has the outcome Success with a line for each vector, of the formula's matrix times it.
pub fn apply_is_right()
    ensures { (words : List (List ℕ)) (options : Options) (bytes : List ℕ) (m : ℕ) (schedule : SpecSchedule)
        (formula : Formula) → Names words (codes "apply") options → AsksModulus options m
        → AsksSchedule options schedule → length ((line 65536).first bytes) ≤ 65536
        → formed (named schedule) ((line 65536).first bytes) (Ok formula)
        → HasWholeVectors (line 65536) (formulas.size_of formula) bytes
        → IsOutcome words bytes Success (lines (meanings.apply m formula)
        (vectors_behind (line 65536) (formulas.size_of formula) m bytes)) }
{}

/// A right call of `exec` has the outcome Success with a line for each vector, of what the listing's program leaves
/// for it.
pub fn exec_is_right()
    ensures { (words : List (List ℕ)) (options : Options) (bytes : List ℕ) (schedule : SpecSchedule)
        (program : PlainProgram) → Names words (codes "exec") options → AsksSchedule options schedule
        → length ((part 1048576).first bytes) ≤ 1048576
        → loaded schedule ((part 1048576).first bytes) (Ok program)
        → HasWholeVectors (part 1048576) program.size bytes
        → IsOutcome words bytes Success (lines (result_of program)
        (vectors_behind (part 1048576) program.size program.modulus bytes)) }
{}

/// A right call of `check` has the outcome Success with the least cost, which the certificate proves.
pub fn check_is_right()
    ensures { (words : List (List ℕ)) (options : Options) (bytes : List ℕ) (request : SpecRequest) (cost : ℕ)
        → Names words (codes "check") options
        → length ((line 256).first bytes) ≤ 256
        → spelt ((line 256).first bytes) (Ok request) → IsAdmitted request
        → length ((line 256).behind bytes) ≤ certificate_limit
        → IsVerdict request ((line 256).behind bytes) (Least cost)
        → IsOutcome words bytes Success (least_line cost) }
{}

/// A right call of `convolve` has the outcome Success with a line for each vector after the first, of its convolution
/// with that one.
pub fn convolve_is_right()
    ensures { (words : List (List ℕ)) (options : Options) (bytes : List ℕ) (schedule : SpecSchedule) (plan : Planned)
        (h : List ℕ) (later : List (List ℕ)) → Names words (codes "convolve") options
        → AsksSchedule options schedule → AsksCode options false
        → IsRightConvLine (named schedule) bytes plan → HasWholeVectors (line 256) plan.request.size bytes
        → request_vectors plan bytes ≡ h ∷ later
        → IsOutcome words bytes Success (lines (convolution plan.request.modulus plan.request.size h) later) }
{}

/// A right call of `convolve --code` has the outcome Success with the listing of the program that convolves with the
/// first vector.
pub fn convolver_is_right()
    ensures { (words : List (List ℕ)) (options : Options) (bytes : List ℕ) (schedule : SpecSchedule) (plan : Planned)
        (h : List ℕ) (later : List (List ℕ)) → Names words (codes "convolve") options
        → AsksSchedule options schedule → AsksCode options true
        → IsRightConvLine (named schedule) bytes plan → vectors_read plan bytes ≡ h ∷ later
        → IsOutcome words bytes Success (listing_of (conv_emission plan.request plan.tree h)) }
{}
