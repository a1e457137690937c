// What is to be said of a certificate.
ghost use Rattle.std.specs.Prelude.{◌≡◌, ◌≢◌, ℕ, ◌+◌, ◌*◌, ◌^◌, ◌<◌, ◌≤◌, IfOk, []};
ghost use Rattle.serde_json.specs.View.{items_view, view};
ghost use Rattle.matrix_meaning.specs.Parts.{parts_of};
ghost use Rattle.tree_model.specs.Chosen.{CanDivideWhole, IsWholeLeast};
ghost use Rattle.plan_cert.specs.Certificate.{IsSmall};
ghost use Rattle.plan_cert.specs.Verdict.{combined, IsItemsVerdict, IsListVerdict, IsValueVerdict, IsVerdict, IsWholeVerdict};
ghost use Rattle.plan_cert.specs.declared.verdict.Verdict.TheVariants.{Least};

use crate::certificate::{WrongRow, check_rows};
use crate::document::{document_rows, json_value};
use crate::rows::has_rows;
use matrix_meaning::Dimensions;
use memory::NoMemory;
use serde_json::Value;
use std::alloc::Global;
use tree_model::{Ctx, closing_cost};

/// What is to be said of a certificate's text.
#[derive(Clone, Copy, PartialEq, Eq, Debug)]
pub enum Verdict {
    /// Every row is right, and this is the least cost.
    Least(u64),
    /// The text is no certificate for the request.
    Unread,
    /// The first wrong row: its size, its cost, and the cost that was found in its place.
    Wrong { size: u64, given: u64, found: u64 },
}

/// Reads a certificate, and checks its rows by the tables alone.
pub fn check_cert(alloc: Global, c: &Ctx, text: &[u8]) -> Result<Verdict, NoMemory>
    requires { CanDivideWhole c.now }
    ensures verdict { IfOk result (IsVerdict c.now text.now) }
    ensures least { IfOk result (λ v. (cost : ℕ) → v ≡ Least cost → IsWholeLeast c.now cost) }
{
    let Some(value) = json_value(alloc, text)? else {
        return Ok(Verdict::Unread);
    };
    let verdict = check_whole(alloc, c, &value)?;
    Ok(verdict)
}

// The verdict on a value that is to be the certificate: of several dimensions a list.
fn check_whole(alloc: Global, c: &Ctx, value: &Value) -> Result<Verdict, NoMemory>
    requires { CanDivideWhole c.now }
    ensures verdict { IfOk result (IsWholeVerdict c.now c.now.dimensions (view value.now)) }
    ensures least { IfOk result (λ v. (cost : ℕ) → v ≡ Least cost → IsWholeLeast c.now cost) }
{
    if c.is_one() {
        let verdict = check_value(alloc, c, value)?;
        Ok(verdict)
    } else {
        let verdict = check_list(alloc, c, value)?;
        Ok(verdict)
    }
}

// The verdict on a value that is to be a list of certificates, one for each dimension.
fn check_list(alloc: Global, c: &Ctx, value: &Value) -> Result<Verdict, NoMemory>
    requires { CanDivideWhole c.now }
    ensures verdict { IfOk result (IsListVerdict c.now (view value.now)) }
    ensures least { IfOk result (λ v. (cost : ℕ) → v ≡ Least cost → IsWholeLeast c.now cost) }
{
    let Some(values) = value.as_array() else {
        return Ok(Verdict::Unread);
    };
    let verdict = check_values(alloc, c, values)?;
    Ok(verdict)
}

// The verdict on the members of a list, one for each dimension.
fn check_values(alloc: Global, c: &Ctx, values: &[Value]) -> Result<Verdict, NoMemory>
    requires { CanDivideWhole c.now }
    ensures verdict { IfOk result (λ v.
        IsItemsVerdict (parts_of c.now) (items_view values.now) v) }
    ensures least { IfOk result (λ v. (cost : ℕ) → v ≡ Least cost → IsWholeLeast c.now cost) }
    ensures small { IfOk result (λ v. (cost : ℕ) → v ≡ Least cost → IsSmall c.now.size cost) }
{
    let request = c.request();
    let Some((value, rest)) = values.split_first() else {
        return Ok(Verdict::Unread);
    };
    match c.parts() {
        None => {
            let a = check_value(alloc, c, value)?;
            Ok(combined(request.size, 1, a, no_more(rest)))
        }
        Some((first, others)) => {
            let r = first.request().size;
            let s = others.request().size;
            let a = check_value(alloc, &first, value)?;
            let b = check_values(alloc, &others, rest)?;
            Ok(combined(r, s, a, b))
        }
    }
}

// The verdict on members after that of the last dimension: there are to be none.
fn no_more(values: &[Value]) -> Verdict
    ensures { IsItemsVerdict [] (items_view values.now) result }
{
    if values.is_empty() {
        Verdict::Least(0)
    } else {
        Verdict::Unread
    }
}

// The verdict on a dimension of size `r` and others of size `s`, by those on each.
fn combined(r: u64, s: u64, first: Verdict, others: Verdict) -> Verdict
    requires { (x y : ℕ) → first ≡ Least x → others ≡ Least y → s * x + r * y < 2 ^ 64 }
    ensures { result ≡ combined r s first others }
{
    match (first, others) {
        (Verdict::Unread, _) | (_, Verdict::Unread) => Verdict::Unread,
        (Verdict::Least(x), Verdict::Least(y)) => Verdict::Least(s * x + r * y),
        (Verdict::Wrong { .. }, _) => first,
        (Verdict::Least(_), Verdict::Wrong { .. }) => others,
    }
}

// The verdict on a value that is to be the certificate of a request of one size.
fn check_value(alloc: Global, c: &Ctx, value: &Value) -> Result<Verdict, NoMemory>
    requires { c.now.dimensions ≡ Dimensions.One }
    ensures verdict { IfOk result (IsValueVerdict c.now (view value.now)) }
    ensures least { IfOk result (λ v. (cost : ℕ) → v ≡ Least cost → IsWholeLeast c.now cost) }
    ensures small { IfOk result (λ v. (cost : ℕ) → v ≡ Least cost → IsSmall c.now.size cost) }
{
    let request = c.request();
    let Some(rows) = document_rows(alloc, request.size, request.weight, value)? else {
        return Ok(Verdict::Unread);
    };
    let forward = c.forward();
    if !has_rows(&forward, &rows) {
        return Ok(Verdict::Unread);
    }
    match check_rows(&forward, closing_cost(c), &rows) {
        Ok(cost) => Ok(Verdict::Least(cost)),
        Err(WrongRow { size, given, found }) => Ok(Verdict::Wrong { size, given, found }),
    }
}
