//! The parts of a report as JSON.
ghost use Rattle.std.specs.Prelude.{◌≡◌, IfOk, option_map, string_bytes};
ghost use Rattle.serde_json.specs.View.{view};
ghost use Rattle.desk_model.specs.claim.Padded.{padded_decimal};
ghost use Rattle.audit_report.specs.claim.ReportText.{clause_data, code_data, number_data, list_data, break_data, divided_data, range_data};

use crate::clause::Clause;
use audit_contiguity::breaks::Break;
use audit_population::deviations::Extremes;
use desk_model::block::BlockId;
use serde_json::{Value, json};
use std::alloc::{AllocError, Global};

fn county_text(alloc: Global, county: u16) -> Result<String, AllocError>
    ensures { IfOk result (λ s. string_bytes s ≡ padded_decimal 3 county) }
{
    format!(in alloc; "{county:03}")
}

fn city_text(alloc: Global, city: u32) -> Result<String, AllocError>
    ensures { IfOk result (λ s. string_bytes s ≡ padded_decimal 5 city) }
{
    format!(in alloc; "{city:05}")
}

fn block_text(alloc: Global, id: BlockId) -> Result<String, AllocError>
    ensures { IfOk result (λ s. string_bytes s ≡ padded_decimal 15 id) }
{
    let number = id.number();
    format!(in alloc; "{number:015}")
}

pub fn clauses_value(alloc: Global, clauses: &[Clause]) -> Result<Value, AllocError>
    ensures { IfOk result (λ v. view v ≡ list_data clause_data clauses.now) }
{
    let mut values = Vec::with_capacity(alloc, clauses.len())?;
    for clause in clauses {
        values.push(Value::String(String::from_str(alloc, clause.name())?))?;
    }
    Ok(Value::Array(values))
}

pub fn counties_value(alloc: Global, counties: &[u16]) -> Result<Value, AllocError>
    ensures { IfOk result (λ v. view v ≡ list_data (code_data 3) counties.now) }
{
    let mut values = Vec::with_capacity(alloc, counties.len())?;
    for county in counties {
        values.push(Value::String(county_text(alloc, *county)?))?;
    }
    Ok(Value::Array(values))
}

pub fn cities_value(alloc: Global, cities: &[u32]) -> Result<Value, AllocError>
    ensures { IfOk result (λ v. view v ≡ list_data (code_data 5) cities.now) }
{
    let mut values = Vec::with_capacity(alloc, cities.len())?;
    for city in cities {
        values.push(Value::String(city_text(alloc, *city)?))?;
    }
    Ok(Value::Array(values))
}

pub fn districts_value(alloc: Global, districts: &[u16]) -> Result<Value, AllocError>
    ensures { IfOk result (λ v. view v ≡ list_data number_data districts.now) }
{
    let mut values = Vec::with_capacity(alloc, districts.len())?;
    for district in districts {
        values.push(Value::from(*district))?;
    }
    Ok(Value::Array(values))
}

/// A list of districts, or null.
pub fn divided_value(alloc: Global, divided: &Option<Vec<u16>>) -> Result<Value, AllocError>
    ensures { IfOk result (λ v. view v ≡ divided_data (option_map (λ d. d.items) divided.now)) }
{
    match divided {
        None => Ok(Value::Null),
        Some(districts) => districts_value(alloc, districts.as_slice()),
    }
}

pub fn people_value(alloc: Global, people: &[u32]) -> Result<Value, AllocError>
    ensures { IfOk result (λ v. view v ≡ list_data number_data people.now) }
{
    let mut values = Vec::with_capacity(alloc, people.len())?;
    for number in people {
        values.push(Value::from(*number))?;
    }
    Ok(Value::Array(values))
}

fn break_value(alloc: Global, found: Break) -> Result<Value, AllocError>
    ensures { IfOk result (λ v. view v ≡ break_data found) }
{
    let Break { district, gap } = found;
    match gap {
        None => json!(in alloc; {"district": district}),
        Some(gap) => {
            let from = block_text(alloc, gap.from)?;
            let to = block_text(alloc, gap.to)?;
            json!(in alloc; {
                "district": district,
                "from": Value::String(from),
                "to": Value::String(to),
            })
        }
    }
}

pub fn breaks_value(alloc: Global, breaks: &[Break]) -> Result<Value, AllocError>
    ensures { IfOk result (λ v. view v ≡ list_data break_data breaks.now) }
{
    let mut values = Vec::with_capacity(alloc, breaks.len())?;
    for found in breaks {
        values.push(break_value(alloc, *found)?)?;
    }
    Ok(Value::Array(values))
}

pub fn range_value(alloc: Global, range: Option<Extremes>) -> Result<Value, AllocError>
    ensures { IfOk result (λ v. view v ≡ range_data range) }
{
    match range {
        None => Ok(Value::Null),
        Some(extremes) => json!(in alloc; [extremes.most, extremes.least]),
    }
}
