//! The text of an audit.
ghost use Rattle.std.specs.Prelude.{◌≡◌, IfOk};
ghost use Rattle.std.specs.Option.{option_copied, option_map};
ghost use Rattle.desk_model.specs.Companions.{companions_copied};
ghost use Rattle.audit_report.specs.Audits.{IsAuditable};
ghost use Rattle.desk_store_catalogue.specs.claim.Audits.{IsReportText};

use audit_report::audit::audit;
use desk_model::companions::Companions;
use desk_model::geography::Geography;
use desk_model::kind::Kind;
use desk_model::text::Text;
use desk_store_lists::Districts;
use std::alloc::{AllocError, Global};

/// The list, flat, if there is one.
fn flat(alloc: Global, list: Option<&Districts>) -> Result<Option<Vec<u16>>, AllocError>
    ensures { IfOk result (λ flat. option_map (λ v. v.items) flat ≡ option_copied list.entry) }
{
    match list {
        Some(list) => Ok(Some(list.to_vec(alloc)?)),
        None => Ok(None),
    }
}

/// The list, if there is one.
fn as_list(flat: &Option<Vec<u16>>) -> Option<&[u16]>
    ensures { option_copied result ≡ option_map (λ v. v.items) flat.now }
{
    match flat {
        Some(list) => Some(list.as_slice()),
        None => None,
    }
}

/// Returns the report on a plan's districts with its companions as JSON.
pub fn report(
    alloc: Global,
    geography: &Geography,
    kind: Kind,
    n: u16,
    districts: &Districts,
    beside: Companions<&Districts>,
) -> Result<Text, AllocError>
    requires { IsAuditable geography.now kind n districts.now (companions_copied beside) }
    ensures { IfOk result (IsReportText geography.now
        (record { kind = kind; n = n; districts = districts.now; beside = companions_copied beside.entry })) }
{
    let districts = districts.to_vec(alloc)?;
    let senate = flat(alloc, beside.senate)?;
    let congress = flat(alloc, beside.congress)?;
    let report = audit(
        alloc,
        geography,
        kind,
        n,
        districts.as_slice(),
        as_list(&senate),
        as_list(&congress),
    )?;
    let json = report.to_json(alloc)?;
    Ok(Text::from_vec(json.into_bytes()))
}
