// Which programs the commands print, statement by statement: those of the rules of emission, and of a formula that which
// merging makes. A reader who wants to know what the programs do needs none of these laws.
ghost use Rattle.std.specs.Prelude.{ℕ, true, List, codes};
ghost use Rattle.schedules.specs.Schedule.{Plan as SpecSchedule};
ghost use Rattle.commands.specs.Equations.C.{c_answer};
ghost use Rattle.commands.specs.Equations.Code.{code_answer};
ghost use Rattle.commands.specs.Equations.Compile.{compile_answer};
ghost use Rattle.commands.specs.Equations.Convolve.{convolver_answer};
ghost use Rattle.commands.specs.Equations.Trace.{trace_answer};
ghost use Rattle.spiral_main.specs.Outcome.{IsOutcome};
ghost use Rattle.spiral_words.specs.declared.statuses.status.Status.{Status as SpecStatus};
ghost use Rattle.spiral_words.specs.Asked.{AsksCode, AsksModulus, AsksOrder, AsksSchedule};
ghost use Rattle.spiral_words.specs.CommandLine.{Names, Options};
ghost use Rattle.spiral_words.specs.declared.Order.{Order as SpecOrder};

/// The text of `code` is the listing of the request's emission.
pub fn code_letters()
    ensures { (words : List (List ℕ)) (options : Options) (bytes : List ℕ)
        (status : SpecStatus) (text : List ℕ) → Names words (codes "code") options
        → IsOutcome words bytes status text → code_answer bytes status text }
{}

/// That of `c` is the C text of the same emission.
pub fn c_letters()
    ensures { (words : List (List ℕ)) (options : Options) (bytes : List ℕ)
        (status : SpecStatus) (text : List ℕ) → Names words (codes "c") options
        → IsOutcome words bytes status text → c_answer bytes status text }
{}

/// That of `trace` has the listing and the runs of the same emission.
pub fn trace_letters()
    ensures { (order : SpecOrder) (words : List (List ℕ)) (options : Options) (bytes : List ℕ)
        (status : SpecStatus) (text : List ℕ) → Names words (codes "trace") options → AsksOrder options order
        → IsOutcome words bytes status text → trace_answer order bytes status text }
{}

/// The text of `compile` is the listing of the formula's program, as merging makes it.
pub fn compile_letters()
    ensures { (m : ℕ) (words : List (List ℕ)) (options : Options) (bytes : List ℕ)
        (status : SpecStatus) (text : List ℕ) → Names words (codes "compile") options → AsksModulus options m
        → IsOutcome words bytes status text → compile_answer m bytes status text }
{}

/// The text of `convolve --code` is the listing of the emission for the first vector.
pub fn convolver_letters()
    ensures { (schedule : SpecSchedule) (words : List (List ℕ)) (options : Options) (bytes : List ℕ)
        (status : SpecStatus) (text : List ℕ) → Names words (codes "convolve") options → AsksSchedule options schedule
        → AsksCode options true
        → IsOutcome words bytes status text → convolver_answer schedule bytes status text }
{}
