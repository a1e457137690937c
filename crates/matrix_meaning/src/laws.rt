ghost use Rattle.matrix_meaning.specs.Laws.{AskedByForward, AskedByParts, AskedOfOne, CooleyTukey, DimensionByDimension, GoodThomas, InverseIsValid, InverseRoot, InverseTransform, Split};

/// A Fourier transform whose size is a product, by strides.
#[tactic(auto, using(crate::proofs::CooleyTukey::cooley_tukey))]
pub fn cooley_tukey()
    ensures { CooleyTukey }
{}

/// A Fourier transform whose size is a product of coprime numbers, with no twiddle factors.
#[tactic(auto, using(crate::proofs::GoodThomas::good_thomas))]
pub fn good_thomas()
    ensures { GoodThomas }
{}

/// A Walsh-Hadamard transform whose size is a product.
#[tactic(auto, using(crate::proofs::WalshHadamard::split))]
pub fn split()
    ensures { Split }
{}

/// The inverse transform is the transform by the inverse root, divided by the size.
#[tactic(auto, using(crate::proofs::InverseTransform::inverse_transform_is, crate::proofs::InverseTransform::inverse_root_is_root))]
pub fn inverse_transform()
    ensures transform { InverseTransform }
    ensures root { InverseRoot }
{}

/// The transform of several dimensions, by that of the first one and that of the others.
pub fn dimension_by_dimension()
    ensures { DimensionByDimension }
{}

/// What requests ask for, by the requests that they are made of.
pub fn asked_of_requests()
    ensures one { AskedOfOne }
    ensures forward { AskedByForward }
    ensures parts { AskedByParts }
    ensures valid { InverseIsValid }
{}
