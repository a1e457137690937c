// The programs that the definitions name are good.
ghost use Rattle.generate.specs.GoodPrograms.{ConvProgramsConvolve, FormulaProgramsAreCode};
ghost use Rattle.generate.specs.GoodPrograms.{ProgramsAreGood};

/// The program of a request's planned tree is good for the request, and lean.
pub fn programs_are_good()
    ensures { ProgramsAreGood }
{}

/// The program of a planned tree and a list is one for convolutions with the list.
pub fn conv_programs_convolve()
    ensures { ConvProgramsConvolve }
{}

/// The program of a formula is its code.
pub fn formula_programs_are_code()
    ensures { FormulaProgramsAreCode }
{}
