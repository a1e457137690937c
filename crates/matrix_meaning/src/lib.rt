//! The transforms: what a request asks for, the entries of their matrices, their plain products
//! with a list, and the laws by which large ones are made of small ones.
#![tactic(auto)]

mod convolution;
mod laws;
mod methods;
mod plain;

ghost use Rattle.std.specs.Prelude.{◌≡◌, ℕ, ◌*◌, ◌%◌, ◌<◌, ◌≤◌};
ghost use Rattle.matrix_meaning.specs.Laws.{twiddle};

pub use convolution::{conv_plain, convolution_by_transforms, first_bad_power, inverse_undoes};
pub use laws::{
    asked_of_requests, cooley_tukey, dimension_by_dimension, good_thomas, inverse_transform, split,
};
pub use plain::{entry, times_plain};
use ring_mod::Modulus;

/// Which transform.
#[derive(Clone, Copy, PartialEq, Eq, Debug)]
pub enum Kind {
    /// The discrete Fourier transform, with powers of a root as its entries.
    Dft,
    /// The transform of Walsh and Hadamard, with 1 and m - 1 as its entries.
    Wht,
    /// The inverse of the Fourier transform: that by the inverse root, divided by its size.
    Idft,
}

/// One dimension: how many places it has, and its root.
#[derive(Clone, Copy, PartialEq, Eq, Debug)]
pub struct Dimension {
    pub size: u64,
    pub root: u64,
}

/// The dimensions of a request, where there are several: the last one is fastest.
#[derive(Clone, Copy, PartialEq, Eq, Debug)]
pub enum Dimensions {
    One,
    Two(Dimension, Dimension),
    Three(Dimension, Dimension, Dimension),
    Four(Dimension, Dimension, Dimension, Dimension),
}

/// What a request line asks for. `root` is 0 for the Walsh-Hadamard transform. With several
/// dimensions `size` is their product and `root` is 1.
#[derive(Clone, Copy, PartialEq, Eq, Debug)]
pub struct Request {
    pub kind: Kind,
    pub size: u64,
    pub modulus: u64,
    pub root: u64,
    pub dimensions: Dimensions,
    pub procs: u64,
    pub line: u64,
    pub lanes: u64,
    pub unroll: u64,
    pub budget: u64,
    pub weight: u64,
}

/// The twiddle factor at the place `p` of the diagonal between two steps of a Fourier transform,
/// where the second step has the size `s`: `w` to the power `(p / s) * (p % s)`.
#[tactic(auto, using(operators::proofs::Places::twiddle_exponent_below))]
pub fn twiddle_factor(modulus: &Modulus, s: u64, w: u64, p: u64) -> u64
    requires size { 1 ≤ s }
    requires root { w < modulus.now }
    ensures value { result ≡ twiddle modulus.now s w p }
    ensures residue { result < modulus.now }
{
    modulus.pow(w, (p / s) * (p % s))
}
