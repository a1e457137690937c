// Products of residues by one modulus without a division: the quotient is estimated from the front of the product and a
// reciprocal of the modulus (Barrett, CRYPTO 1986).

ghost use Rattle.std.specs.Prelude.{◌≡◌, ℕ, ◌+◌, ◌*◌, ◌/◌, ◌%◌, ◌^◌, ◌<◌, ◌≤◌};
ghost use Rattle.ring_mod.specs.Residue.{sum_mod, difference_mod, product_mod};

use crate::Modulus;
use std::marker::Model;

/// The least divisor.
const LEAST: u64 = 1 << 61;

/// A number from 2^61 up to 2^62, and the quotient of 2^124 by it.
#[derive(Clone, Copy)]
struct Divisor {
    number: u64,
    reciprocal: u64,
    ghost least: { 2 ^ 61 ≤ number },
    ghost limit: { number < 2 ^ 62 },
    ghost quotient: { reciprocal ≡ 2 ^ 124 / number },
}

impl Divisor {
    fn new(number: u64) -> Self
        requires least { 2 ^ 61 ≤ number }
        requires limit { number < 2 ^ 62 }
        ensures { result.number ≡ number }
    {
        let reciprocal = ((1u128 << 124) / number as u128) as u64;
        Divisor { number, reciprocal }
    }

    /// The remainder of x. The estimate of the quotient is at most two below it.
    #[inline]
    fn rest(&self, x: u128) -> u64
        requires small { x < 2 ^ 124 }
        ensures { result ≡ x % self.now.number }
    {
        let front = (x >> 61) as u64;
        let quotient = (front as u128 * self.reciprocal as u128 >> 63) as u64;
        let rest = (x - quotient as u128 * self.number as u128) as u64;
        less(less(rest, self.number), self.number)
    }
}

/// What is left, less the divisor where that is no more.
#[inline]
fn less(rest: u64, divisor: u64) -> u64
    ensures below { rest < divisor → result ≡ rest }
    ensures above { divisor ≤ rest → result + divisor ≡ rest }
{
    if rest >= divisor {
        rest - divisor
    } else {
        rest
    }
}

/// A modulus for many products, which a clause sees as a number m. The divisor is m times a power of two.
#[derive(Drop)]
pub struct QuickModulus {
    modulus: Modulus,
    shift: u64,
    divisor: Divisor,
}

impl Model for QuickModulus {
    ghost use Rattle.std.specs.Prelude.{ℕ};

    ghost Value = { ℕ };

    ghost use Rattle.ring_mod.specs.QuickProducts.Scaled.{modulus_of, IsScaled};

    ghost view = { modulus_of };

    ghost invariant = { IsScaled };
}

impl QuickModulus {
    pub fn new(modulus: Modulus) -> Self
        ensures { result ≡ modulus }
    {
        let mut shift = 0;
        let mut number = modulus.get();
        while number < LEAST {
            number *= 2;
            shift += 1;
        }
        let divisor = Divisor::new(number);
        QuickModulus {
            modulus,
            shift,
            divisor,
        }
    }

    /// The modulus itself.
    pub fn modulus(&self) -> Modulus
        ensures { result ≡ self.now }
    {
        self.modulus
    }

    #[inline]
    pub fn add(&self, a: u64, b: u64) -> u64
        requires a_in { a < self.now }
        requires b_in { b < self.now }
        ensures value { result ≡ sum_mod self.now a b }
        ensures residue { result < self.now }
    {
        self.modulus.add(a, b)
    }

    #[inline]
    pub fn sub(&self, a: u64, b: u64) -> u64
        requires a_in { a < self.now }
        requires b_in { b < self.now }
        ensures value { result ≡ difference_mod self.now a b }
        ensures residue { result < self.now }
    {
        self.modulus.sub(a, b)
    }

    #[inline]
    pub fn mul(&self, a: u64, b: u64) -> u64
        requires a_in { a < self.now }
        requires b_in { b < self.now }
        ensures value { result ≡ product_mod self.now a b }
        ensures residue { result < self.now }
    {
        let scaled = a << self.shift;
        self.divisor.rest(scaled as u128 * b as u128) >> self.shift
    }
}
