// What is proved of the meaning of C, and of the texts of programs in it.

ghost use Rattle.std.specs.Prelude.{◌≡◌, true};
ghost use Rattle.std.specs.List.{list_all};
ghost use Rattle.c_meaning.specs.Rows as expressions;
ghost use Rattle.c_meaning.specs.Procedures as procedures;
ghost use Rattle.c_meaning.specs.Units.{unit_text};
ghost use Rattle.c_meaning.specs.PlaceLaws.{PlacesAreTrees, PlacesHaveValues};
ghost use Rattle.c_meaning.specs.FunctionLaws.{FunctionsAreTrees, FunctionsCompute};
ghost use Rattle.c_meaning.specs.AddressLaws.{ElementsAreWords, RegistersAreWords};
ghost use Rattle.c_meaning.specs.EntryLaws.{TablesHaveEntries, EntriesAreWords};
ghost use Rattle.c_meaning.specs.LaneLaws.{LanesCompute, LanesBecome};
ghost use Rattle.c_meaning.specs.MemoryLaws.{LanesLoad, LanesStore};
ghost use Rattle.c_meaning.specs.ScaleLaws.{LanesScale};
ghost use Rattle.c_meaning.specs.StepLaws.{LanesAreSteps};
ghost use Rattle.c_meaning.specs.ProgramLaws.{ProgramsAreTrees, PhasesAreRead, UnitsCompute, PhasesKnow};

/// The tables of small texts, which compilers are compared with, hold in this meaning.
pub fn small_texts()
    ensures expressions { list_all expressions.holds expressions.rows ≡ true }
    ensures front { unit_text procedures.front ≡ procedures.front_lines }
    ensures procedures { list_all procedures.holds procedures.rows ≡ true }
{}

/// The place of a load, a store or a factor: its text is a tree, which has no undefined step and the place's value.
pub fn places()
    ensures trees { PlacesAreTrees }
    ensures values { PlacesHaveValues }
{}

/// The functions of a text: their text is a tree, which computes on residues.
pub fn functions()
    ensures trees { FunctionsAreTrees }
    ensures values { FunctionsCompute }
{}

/// The C text of a program is a tree. In it each function computes on residues modulo the program's modulus, and where
/// a statement of a phase stands, the names of places have the values of the processor and of the open loops.
pub fn programs()
    ensures trees { ProgramsAreTrees }
    ensures grammar { PhasesAreRead }
    ensures functions { UnitsCompute }
    ensures names { PhasesKnow }
{}

/// Where the statement of a lane stands, the elements of arrays, registers and tables are the words and the entries that
/// the machine's actions name.
pub fn elements()
    ensures arrays { ElementsAreWords }
    ensures registers { RegistersAreWords }
    ensures tables { TablesHaveEntries }
    ensures entries { EntriesAreWords }
{}

/// A lane of an operation: on registers, and on a register and a table, its text computes on residues, and a lane of a
/// register becomes a value. Its statement is a step for each lane.
pub fn lanes()
    ensures values { LanesCompute }
    ensures products { LanesScale }
    ensures steps { LanesBecome }
    ensures order { LanesAreSteps }
{}

/// A lane of a load has the number of its address, and a lane of a store leaves one there.
pub fn memory()
    ensures loads { LanesLoad }
    ensures stores { LanesStore }
{}
