// The laws of words that are doubles.

ghost use Rattle.double_code.specs.Factors.{FactorsAreCentred};
ghost use Rattle.double_code.specs.Laws.{DoubledIsSame, DoubledOrderIsFree, DoubledActsTheSame};
ghost use Rattle.double_code.specs.Products.{InversesAreThere, DoubleProducts};
ghost use Rattle.double_code.specs.Reductions.{DoubleReductions};
ghost use Rattle.double_code.specs.Sums.{DoubleSums};

/// Each modulus has a nearest inverse.
pub fn inverses_are_there()
    ensures { InversesAreThere }
{}

/// Each residue has a factor of at most half of the modulus.
pub fn factors_are_centred()
    ensures { FactorsAreCentred }
{}

/// Sums and differences are exact up to 2^53.
pub fn double_sums()
    ensures { DoubleSums }
{}

/// Each step of a product but the rounded ones is exact, and the result stands for the product.
pub fn double_products()
    ensures { DoubleProducts }
{}

/// A reduction is exact, and finds the residue.
pub fn double_reductions()
    ensures { DoubleReductions }
{}

/// A program on doubles leaves the residues that the program leaves, whatever the order of turns.
pub fn doubled_is_same()
    ensures { DoubledIsSame }
{}

/// Where no processor touches a line that another writes, the order of turns is free.
pub fn doubled_order_is_free()
    ensures { DoubledOrderIsFree }
{}

/// A program on doubles does the actions of the program, at the same places.
pub fn doubled_acts_the_same()
    ensures { DoubledActsTheSame }
{}
