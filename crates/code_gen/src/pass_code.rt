// Passes as statements of programs, and what the programs of merged passes must do.
ghost use Rattle.code_gen.specs.PassCode.Conditions.{PassesAreEmitted};
ghost use Rattle.code_gen.specs.PassCode.Small.{ExpressionsAreWithin, TestedSumsAreCoded};

/// The statements of each pass that can be written are its actions, at places that are inside, within the limits of
/// programs.
pub fn passes_are_emitted()
    ensures { PassesAreEmitted }
{}

/// The expression of a sum of small numbers stands within the limits of programs.
pub fn expressions_are_within()
    ensures { ExpressionsAreWithin }
{}

/// Places that pass merging's test can be coded.
pub fn tested_sums_are_coded()
    ensures { TestedSumsAreCoded }
{}
