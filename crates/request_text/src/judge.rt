// The first fault of what a line spells.
ghost use Rattle.std.specs.Prelude.{◌≡◌, ◌≤◌, Ok, IfOk};
ghost use Rattle.matrix_meaning.specs.Dimensions.{dims_of};
ghost use Rattle.request_text.specs.OneToFour.{items, spelt};
ghost use Rattle.request_text.specs.Limits.{limits, between, within, below, sizes_within, products_within, sized};
ghost use Rattle.request_text.specs.Limits.{roots_below, shaped, divided, coprime, divisible, limited, judged};
ghost use Rattle.request_text.specs.Line.{dimensions_of, root_of};

use crate::fault::{Field, RequestFault};
use crate::one_to_four::OneToFour;
use crate::spelling::Fields;
use matrix_meaning::{Dimension, Dimensions, Kind, Request};
use operators::MAX_SIZE;
use ring_mod::gcd;

/// The least and the greatest value of the field.
fn limits(field: Field) -> (u64, u64)
    ensures { result ≡ limits field }
{
    match field {
        Field::Size => (1, MAX_SIZE),
        Field::Mod => (2, (1 << 62) - 1),
        Field::Root => (0, (1 << 62) - 2),
        Field::Procs => (1, 16),
        Field::Line => (1, 64),
        Field::Lanes => (1, 16),
        Field::Unroll => (2, 64),
        Field::Budget => (1, 1_000_000_000_000),
        Field::Weight => (1, 1_000),
    }
}

/// The field's value is within its limits.
fn within(field: Field, value: u64) -> Result<(), RequestFault>
    ensures { result ≡ within field value }
{
    let (low, high) = limits(field);
    between(field, value, low, high)
}

/// The field's value is from `low` to `high`.
fn between(field: Field, value: u64, low: u64, high: u64) -> Result<(), RequestFault>
    ensures { result ≡ between field value low high }
{
    if low <= value && value <= high {
        Ok(())
    } else {
        Err(RequestFault::Range { field, value })
    }
}

/// The field's value is below the limit.
fn below(field: Field, value: u64, limit: u64) -> Result<(), RequestFault>
    ensures { result ≡ below field value limit }
{
    if value < limit {
        Ok(())
    } else {
        Err(RequestFault::Range { field, value })
    }
}

/// Each size is within the limits of one of several.
fn sizes_within(dimensions: &OneToFour<Dimension>) -> Result<(), RequestFault>
    ensures { result ≡ sizes_within (items dimensions.now) }
{
    let (first, others) = dimensions.parts();
    between(Field::Size, first.size, 2, MAX_SIZE)?;
    match others {
        None => Ok(()),
        Some(others) => sizes_within(&others),
    }
}

/// So is each product of a front of the sizes, times what is before them. The last product.
fn products_within(before: u64, dimensions: &OneToFour<Dimension>) -> Result<u64, RequestFault>
    requires before { before ≤ 1048576 }
    requires sizes { sizes_within (items dimensions.now) ≡ Ok tt }
    ensures { result ≡ products_within before (items dimensions.now) }
{
    let (first, others) = dimensions.parts();
    let product = before * first.size;
    between(Field::Size, product, 2, MAX_SIZE)?;
    match others {
        None => Ok(product),
        Some(others) => products_within(product, &others),
    }
}

/// The product of the sizes, which are within their limits.
fn sized(dimensions: &OneToFour<Dimension>) -> Result<u64, RequestFault>
    ensures { result ≡ sized (items dimensions.now) }
{
    match dimensions.parts() {
        (only, None) => {
            within(Field::Size, only.size)?;
            Ok(only.size)
        }
        (_, Some(_)) => {
            sizes_within(dimensions)?;
            products_within(1, dimensions)
        }
    }
}

/// Each root is below the modulus.
fn roots_below(modulus: u64, dimensions: &OneToFour<Dimension>) -> Result<(), RequestFault>
    ensures { result ≡ roots_below modulus (items dimensions.now) }
{
    let (first, others) = dimensions.parts();
    below(Field::Root, first.root, modulus)?;
    match others {
        None => Ok(()),
        Some(others) => roots_below(modulus, &others),
    }
}

/// The size of a `wht` is a power of two.
fn shaped(kind: Kind, size: u64) -> Result<(), RequestFault>
    ensures { result ≡ shaped kind size }
{
    match kind {
        Kind::Dft => Ok(()),
        Kind::Wht => {
            if size.is_power_of_two() {
                Ok(())
            } else {
                Err(RequestFault::Shape { size })
            }
        }
        Kind::Idft => Ok(()),
    }
}

/// With several processors the lanes divide the line.
fn divided(procs: u64, line: u64, lanes: u64) -> Result<(), RequestFault>
    requires { 1 ≤ lanes }
    ensures { result ≡ divided procs line lanes }
{
    if procs <= 1 || line % lanes == 0 {
        Ok(())
    } else {
        Err(RequestFault::LanesLine { lanes, line })
    }
}

/// Size and modulus share no factor.
#[tactic(auto, using(crate::proofs::CommonFactor::common_factor_is))]
pub(crate) fn coprime(size: u64, modulus: u64) -> Result<(), RequestFault>
    requires { 1 ≤ size }
    ensures { result ≡ coprime size modulus }
{
    match gcd(size, modulus) {
        1 => Ok(()),
        gcd => Err(RequestFault::NotUnit { gcd }),
    }
}

/// An inverse divides by the size.
fn divisible(kind: Kind, size: u64, modulus: u64) -> Result<(), RequestFault>
    requires { 1 ≤ size }
    ensures { result ≡ divisible kind size modulus }
{
    match kind {
        Kind::Dft => Ok(()),
        Kind::Wht => Ok(()),
        Kind::Idft => coprime(size, modulus),
    }
}

/// The first limit that the request of these dimensions misses, its sizes aside.
#[tactic(auto, unfolding(crate::specs::Limits::limited))]
fn limited(request: &Request, dimensions: &OneToFour<Dimension>) -> Result<(), RequestFault>
    requires size { 1 ≤ request.now.size }
    requires dimensions { dims_of request.now ≡ items dimensions.now }
    ensures { result ≡ limited request.now }
{
    within(Field::Mod, request.modulus)?;
    roots_below(request.modulus, dimensions)?;
    within(Field::Procs, request.procs)?;
    within(Field::Line, request.line)?;
    within(Field::Lanes, request.lanes)?;
    within(Field::Unroll, request.unroll)?;
    within(Field::Budget, request.budget)?;
    within(Field::Weight, request.weight)?;
    shaped(request.kind, request.size)?;
    divided(request.procs, request.line, request.lanes)?;
    divisible(request.kind, request.size, request.modulus)?;
    Ok(())
}

fn root_of(dimensions: &OneToFour<Dimension>) -> u64
    ensures { result ≡ root_of (items dimensions.now) }
{
    match *dimensions {
        OneToFour::One(only) => only.root,
        OneToFour::Two(_, _) => 1,
        OneToFour::Three(_, _, _) => 1,
        OneToFour::Four(_, _, _, _) => 1,
    }
}

fn dimensions_of(dimensions: &OneToFour<Dimension>) -> Dimensions
    ensures { result ≡ dimensions_of (items dimensions.now) }
{
    match *dimensions {
        OneToFour::One(_) => Dimensions::One,
        OneToFour::Two(a, b) => Dimensions::Two(a, b),
        OneToFour::Three(a, b, c) => Dimensions::Three(a, b, c),
        OneToFour::Four(a, b, c, d) => Dimensions::Four(a, b, c, d),
    }
}

/// The request that the fields make up, where the sizes have this product.
fn request_of(fields: &Fields, size: u64) -> Request
    requires { sized (items fields.now.dimensions) ≡ Ok size }
    ensures { result ≡ spelt fields.now }
{
    Request {
        kind: fields.kind,
        size,
        modulus: fields.modulus,
        root: root_of(&fields.dimensions),
        dimensions: dimensions_of(&fields.dimensions),
        procs: fields.procs,
        line: fields.line,
        lanes: fields.lanes,
        unroll: fields.unroll,
        budget: fields.budget,
        weight: fields.weight,
    }
}

/// The request that the fields make up, or its first fault.
pub(crate) fn checked(fields: &Fields) -> Result<Request, RequestFault>
    ensures value { result ≡ judged (spelt fields.now) }
    ensures size { IfOk result (λ r. 1 ≤ r.size) }
{
    let size = sized(&fields.dimensions)?;
    let request = request_of(fields, size);
    limited(&request, &fields.dimensions)?;
    Ok(request)
}
