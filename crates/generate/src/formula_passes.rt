// The merged passes of formulas: a program can be made of them, and it computes the formula.
ghost use Rattle.generate.specs.FormulaPasses.Computes.{FormulasCompute};
ghost use Rattle.generate.specs.FormulaPasses.Laws.{FormulasAreReady};

/// A program can be made of the passes of every formula of this language.
pub fn formulas_are_ready()
    ensures { FormulasAreReady }
{}

/// A program that performs them does what the formula does, in exactly its operations.
pub fn formulas_compute()
    ensures { FormulasCompute }
{}
