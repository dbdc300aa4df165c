//! The list of plans, as JSON.
ghost use Rattle.std.specs.Prelude.{◌≡◌, ◌++◌, codes, decimal, OnOk};
ghost use Rattle.desk_model.specs.claim.Kind.{kind_name};
ghost use Rattle.serde_json.specs.Written.{compact_text, comma_if};
ghost use Rattle.http_desk_streams.specs.claim.Bodies.{row_data, plans_body};

use desk_model::kind::Kind;
use desk_model::reply::PlanRow;
use itoa::Buffer;
use std::alloc::AllocError;

/// Appends a number.
fn put_number(text: &mut Vec<u8>, number: u64) -> Result<(), AllocError>
    ensures { OnOk result (text.new.items ≡ text.old.items ++ decimal number) }
{
    let mut digits = Buffer::new();
    text.extend_from_slice(digits.format(number).as_bytes())?;
    Ok(())
}

/// A line up to the number of districts, after a comma where it isn't the first.
fn line_start(is_later: bool) -> &'static [u8]
    ensures { result.now ≡ comma_if is_later ++ codes "{\"districts\":" }
{
    if is_later {
        b",{\"districts\":"
    } else {
        b"{\"districts\":"
    }
}

/// The kind, and the text between it and the name.
fn kind_member(kind: Kind) -> &'static [u8]
    ensures { result.now ≡ codes ",\"kind\":\"" ++ (kind_name kind ++ codes "\",\"name\":\"") }
{
    match kind {
        Kind::Congress => b",\"kind\":\"congress\",\"name\":\"",
        Kind::Senate => b",\"kind\":\"senate\",\"name\":\"",
        Kind::House => b",\"kind\":\"house\",\"name\":\"",
    }
}

/// Appends a line of the list, after a comma where it isn't the first.
fn put_item(text: &mut Vec<u8>, row: &PlanRow, is_later: bool) -> Result<(), AllocError>
    ensures { OnOk result (text.new.items ≡ text.old.items ++ (comma_if is_later ++ compact_text (row_data row.now))) }
{
    text.extend_from_slice(line_start(is_later))?;
    put_number(text, row.n as u64)?;
    text.extend_from_slice(kind_member(row.kind))?;
    text.extend_from_slice(row.name.as_slice())?;
    text.extend_from_slice(b"\",\"revisions\":")?;
    put_number(text, row.revisions as u64)?;
    text.push(b'}')?;
    Ok(())
}

/// Writes the list of plans in place of what was there.
#[tactic(auto, using(crate::proofs::BodyLemmas::begins))]
pub fn put_plans(text: &mut Vec<u8>, rows: &[PlanRow]) -> Result<(), AllocError>
    ensures { OnOk result (text.new.items ≡ plans_body rows.now) }
{
    text.clear();
    text.extend_from_slice(b"{\"plans\":[")?;
    let mut is_later = false;
    for row in rows {
        put_item(text, row, is_later)?;
        is_later = true;
    }
    text.extend_from_slice(b"]}")?;
    Ok(())
}
