// The certificate of a request, as text.
ghost use Rattle.std.specs.Prelude.{◌≡◌, ◌∷◌, ℕ, List, IfOk};
ghost use Rattle.matrix_meaning.specs.Parts.{parts_of};
ghost use Rattle.tree_model.specs.Chosen.{CanDivideWhole, IsWholeLeast};
ghost use Rattle.serde_json.specs.Data.{array};
ghost use Rattle.serde_json.specs.View.{items_view, view};
ghost use Rattle.plan_cert.specs.declared.verdict.Verdict.TheVariants.{Least};
ghost use Rattle.plan_cert.specs.Verdict.{IsVerdict};
ghost use Rattle.plan_cert.specs.Table.{choice_name, row_data, rows_data, table_data, AreTables, IsLineOf, IsPlain, IsTableOf, IsTableText, IsWholeTable};

use crate::certificate::Row;
use crate::table::table_rows;
use matrix_meaning::Dimensions;
use memory::NoMemory;
use serde_json::{Value, json, push};
use std::alloc::Global;
use tree_model::{Ctx, Rule, closing_cost};

/// The certificate of a request, one line of JSON of version 2: the weight, and for each wanted size the first of the
/// cheapest trees; of several dimensions, a list of the certificates of each. Its verdict is the request's least cost.
pub fn certify(alloc: Global, c: &Ctx) -> Result<Vec<u8>, NoMemory>
    requires { CanDivideWhole c.now }
    ensures table { IfOk result (λ text. IsTableText c.now text.items) }
    ensures verdict { IfOk result (λ text.
        (cost : ℕ) × IsVerdict c.now text.items (Least cost) × IsWholeLeast c.now cost) }
{
    // For the proof: the request is valid.
    let _ = c.request();
    let value = certificate_value(alloc, c)?;
    let text = value_line(alloc, &value)?;
    Ok(text)
}

// The certificate of a request, as a value.
fn certificate_value(alloc: Global, c: &Ctx) -> Result<Value, NoMemory>
    requires { CanDivideWhole c.now }
    ensures { IfOk result (λ value. IsWholeTable c.now c.now.dimensions (view value)) }
{
    if c.is_one() {
        let value = table_value(alloc, c)?;
        Ok(value)
    } else {
        let values = certificates(alloc, c)?;
        Ok(Value::Array(values))
    }
}

// The certificates of the dimensions, in their order.
fn certificates(alloc: Global, c: &Ctx) -> Result<Vec<Value>, NoMemory>
    requires { CanDivideWhole c.now }
    ensures { IfOk result (λ values. AreTables (parts_of c.now) (items_view values.items)) }
{
    match c.parts() {
        None => {
            let value = table_value(alloc, c)?;
            let values = in_front(value, Vec::new(alloc))?;
            Ok(values)
        }
        Some((first, others)) => {
            let value = table_value(alloc, &first)?;
            let values = certificates(alloc, &others)?;
            let values = in_front(value, values)?;
            Ok(values)
        }
    }
}

// The values with one more before them.
fn in_front(value: Value, mut values: Vec<Value>) -> Result<Vec<Value>, NoMemory>
    ensures { IfOk result (λ more. more.items ≡ value ∷ values.items) }
{
    values.insert(0, value)?;
    Ok(values)
}

// The certificate of a request of one size.
fn table_value(alloc: Global, c: &Ctx) -> Result<Value, NoMemory>
    requires one { c.now.dimensions ≡ Dimensions.One }
    requires trees { CanDivideWhole c.now }
    ensures { IfOk result (λ value. IsTableOf c.now (view value)) }
{
    let rows = table_rows(alloc, &c.forward(), closing_cost(c))?;
    let request = c.request();
    let value = document_value(alloc, request.size, request.weight, &rows)?;
    Ok(value)
}

// The text of a value, one line.
fn value_line(alloc: Global, value: &Value) -> Result<Vec<u8>, NoMemory>
    ensures { IfOk result (λ text. IsPlain (view value.now)
        → IsLineOf (view value.now) text.items) }
{
    let mut text = value.to_vec(alloc)?;
    text.push(b'\n')?;
    Ok(text)
}

fn document_value(alloc: Global, size: u64, weight: u64, rows: &[Row]) -> Result<Value, NoMemory>
    ensures { IfOk result (λ value. view value ≡ table_data size weight rows.now) }
{
    let rows = rows_value(alloc, rows)?;
    let table = json!(in alloc; {"rows": rows, "size": size, "version": 2u64, "weight": weight})?;
    Ok(table)
}

fn rows_value(alloc: Global, rows: &[Row]) -> Result<Value, NoMemory>
    ensures { IfOk result (λ value. view value ≡ array (rows_data rows.now)) }
{
    let mut values = Vec::new(alloc);
    for row in rows {
        let value = row_value(alloc, row)?;
        push(&mut values, value)?;
    }
    Ok(Value::Array(values))
}

fn row_value(alloc: Global, row: &Row) -> Result<Value, NoMemory>
    ensures { IfOk result (λ value. view value ≡ row_data row.now) }
{
    let Row {
        size,
        cost,
        rule,
        left,
        right,
    } = *row;
    let items = json!(in alloc; [size, cost, choice_name(rule), left, right])?;
    Ok(items)
}

fn choice_name(rule: Option<Rule>) -> &'static str
    ensures { result.now ≡ choice_name rule }
{
    match rule {
        None => "leaf",
        Some(Rule::Gt) => "gt",
        Some(Rule::Ct) => "ct",
        Some(Rule::Split) => "split",
        Some(Rule::Dim) => "dim",
    }
}
