// The programs that the definitions name are those of the rules of emission.
ghost use Rattle.generate.specs.Emission.Worked.{AreWorked};
ghost use Rattle.generate.specs.EmittedPrograms.{ConvProgramsAreEmissions, ProgramsAreEmissions};

/// The program of each tree that a valid request admits is the one of the rules of emission.
pub fn programs_are_emissions()
    ensures { ProgramsAreEmissions }
{}

/// The program of each planned tree and a list is the one of the rules of emission.
pub fn conv_programs_are_emissions()
    ensures { ConvProgramsAreEmissions }
{}

/// By these rules the programs of small requests are these.
pub fn worked_emissions()
    ensures { AreWorked }
{}
