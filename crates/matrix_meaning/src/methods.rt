// The requests that a request is made of.
ghost use Rattle.std.specs.Prelude.{◌≡◌, ◌≢◌, ◌<◌, ◌↔◌, ◌==◌, if◌then◌else◌, length, IsNone, IfNone, IfSome, Some, None};
ghost use Rattle.matrix_meaning.specs.Dimensions.{dims_of};
ghost use Rattle.matrix_meaning.specs.Parts.{bad_power, first_bad, first_of, forward_of, inverted, part_of, parts_of, rest_of, root_power, together};
ghost use Rattle.matrix_meaning.specs.Valid.{IsInRange, IsValid};

use crate::{Dimension, Dimensions, Kind, Request};
use ring_mod::Modulus;

impl Request {
    /// The request for the Fourier transform by the inverse root.
    pub fn inverted(&self) -> Request
        requires { IsInRange self.now }
        ensures value { result ≡ inverted self.now }
        ensures valid { IsValid self.now → self.now.kind ≢ Kind.Wht
            → self.now.dimensions ≡ Dimensions.One → IsValid result }
    {
        let modulus = Modulus::new(self.modulus).unwrap();
        Request {
            kind: Kind::Dft,
            root: modulus.pow(self.root, self.size - 1),
            ..*self
        }
    }

    /// The request whose trees this one has: for an inverse that by the inverse root, else this
    /// one itself.
    pub fn forward(&self) -> Request
        requires { IsValid self.now }
        ensures value { result ≡ forward_of self.now }
        ensures valid { IsValid result }
        ensures kind { result.kind ≢ Kind.Idft }
    {
        match self.kind {
            Kind::Dft => *self,
            Kind::Wht => *self,
            Kind::Idft => self.inverted(),
        }
    }

    // The request for dimensions of `size` words together, on one processor and one lane.
    fn together(&self, size: u64, dimensions: Dimensions) -> Request
        ensures { result ≡ together self.now size dimensions }
    {
        Request {
            kind: Kind::Dft,
            size,
            root: 1,
            dimensions,
            procs: 1,
            line: 1,
            lanes: 1,
            ..*self
        }
    }

    // The request for one dimension, on one processor and one lane.
    fn part(&self, d: Dimension) -> Request
        ensures { result ≡ part_of self.now d }
    {
        Request {
            root: d.root,
            ..self.together(d.size, Dimensions::One)
        }
    }

    /// Of several dimensions the request for the first one, and that for the others together. None
    /// of one size.
    pub fn parts(&self) -> Option<(Request, Request)>
        requires { IsInRange self.now }
        ensures none { IsNone result ↔ (self.now.dimensions ≡ Dimensions.One) }
        ensures some { IfSome result (λ p. (p.0 ≡ first_of self.now) × (p.1 ≡ rest_of self.now)) }
        ensures in_range { IfSome result (λ p. IsInRange p.0 × IsInRange p.1) }
        ensures valid { IfSome result (λ p. IsValid self.now → IsValid p.0 × IsValid p.1) }
        ensures fewer { IfSome result (λ p. length (dims_of p.1) < length (dims_of self.now)) }
    {
        match self.dimensions {
            Dimensions::One => None,
            Dimensions::Two(a, b) => Some((self.part(a), self.part(b))),
            Dimensions::Three(a, b, c) => {
                let others = self.together(b.size * c.size, Dimensions::Two(b, c));
                Some((self.part(a), others))
            }
            Dimensions::Four(a, b, c, d) => {
                let size = b.size * (c.size * d.size);
                Some((
                    self.part(a),
                    self.together(size, Dimensions::Three(b, c, d)),
                ))
            }
        }
    }

    /// The first root whose power by its size is not 1: that power. Where there is none, the
    /// request is valid.
    pub fn bad_power(&self) -> Option<u64>
        requires { IsInRange self.now }
        ensures value { result ≡ bad_power self.now }
        ensures valid { IfNone result (IsValid self.now) }
    {
        match self.kind {
            Kind::Dft => bad_power_of_parts(self),
            Kind::Wht => None,
            Kind::Idft => bad_power_of_parts(self),
        }
    }
}

fn bad_power_of_parts(r: &Request) -> Option<u64>
    requires { IsInRange r.now }
    ensures { result ≡ first_bad (parts_of r.now) }
{
    match r.parts() {
        None => bad_root(r),
        Some((first, others)) => match bad_root(&first) {
            Some(power) => Some(power),
            None => bad_power_of_parts(&others),
        },
    }
}

// The root to the power of the size, where it is not 1.
fn bad_root(r: &Request) -> Option<u64>
    requires { IsInRange r.now }
    ensures { result ≡ (if root_power r.now == 1 then None else Some (root_power r.now)) }
{
    let modulus = Modulus::new(r.modulus).unwrap();
    let power = modulus.pow(r.root, r.size);
    if power == 1 { None } else { Some(power) }
}
