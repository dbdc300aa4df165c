//! The last report that was made, from which the same audit is answered again.
ghost use Rattle.std.specs.Prelude.{◌≡◌, IfOk, IfSome, IsTrue};
ghost use Rattle.std.specs.Option.{option_copied};
ghost use Rattle.desk_model.specs.Companions.{companions_copied};
ghost use Rattle.audit_report.specs.Audits.{IsAuditable};
ghost use Rattle.desk_store_catalogue.specs.claim.Audits.{IsReportText};

use crate::catalogue::Catalogue;
use crate::report::report;
use desk_model::command::Query;
use desk_model::companions::Companions;
use desk_model::geography::Geography;
use desk_model::kind::Kind;
use desk_model::name::PlanName;
use desk_model::reply::{Refusal, Reply};
use desk_model::text::Text;
use desk_store_lists::Districts;
use std::alloc::{AllocError, Global};
use std::marker::Model;
use std::sync::Arc;

/// Whether two lists of districts are the same.
fn is_same(one: &Districts, other: &Districts) -> bool
    ensures { IsTrue result → one.now ≡ other.now }
{
    one.len() == other.len() && one.is_same_in(other, 0, one.len())
}

/// Returns whether both lists are present and equal, or both absent.
fn is_same_if_any(one: &Option<Districts>, other: Option<&Districts>) -> bool
    ensures { IsTrue result → one.now ≡ option_copied other.entry }
{
    match (one, other) {
        (Some(one), Some(other)) => is_same(one, other),
        (None, None) => true,
        _ => false,
    }
}

/// The same list, of the same pieces, if there is one.
fn shared_if_any(alloc: Global, list: Option<&Districts>) -> Result<Option<Districts>, AllocError>
    ensures { IfOk result (λ same. same ≡ option_copied list.entry) }
{
    match list {
        Some(list) => Ok(Some(list.share(alloc)?)),
        None => Ok(None),
    }
}

/// A report that was made, with what it is of: lists that share their pieces with those of the plans. Contracts see it as the
/// geography.
#[derive(Drop)]
pub struct CachedReport {
    geography: Arc<Geography>,
    kind: Kind,
    n: u16,
    districts: Districts,
    senate: Option<Districts>,
    congress: Option<Districts>,
    text: Text,
}

impl Model for CachedReport {
    ghost use Rattle.desk_model.specs.claim.Geography.{GeographyModel};
    ghost use Rattle.desk_store_catalogue.specs.Made.{IsMadeOf};

    ghost Value = { GeographyModel };

    ghost view = { λ m. m.geography.value };

    ghost invariant = { λ m. IsMadeOf m.geography.value m.kind m.n m.districts m.senate m.congress m.text };
}

impl CachedReport {
    ghost use Rattle.std.specs.Prelude.{◌≡◌, IfOk, IfSome};
    ghost use Rattle.desk_model.specs.Companions.{companions_copied};
    ghost use Rattle.desk_store_catalogue.specs.claim.Audits.{IsReportText};

    /// A report on the districts of a plan and of its companions, with a copy of its text.
    fn new(
        alloc: Global,
        geography: &Arc<Geography>,
        kind: Kind,
        n: u16,
        districts: &Districts,
        beside: Companions<&Districts>,
        text: &Text,
    ) -> Result<CachedReport, AllocError>
        requires { IsReportText geography.now.value
            (record { kind = kind; n = n; districts = districts.now; beside = companions_copied beside }) text.now }
        ensures { IfOk result (λ made. made ≡ geography.now.value) }
    {
        Ok(CachedReport {
            geography: geography.clone()?,
            kind,
            n,
            districts: districts.share(alloc)?,
            senate: shared_if_any(alloc, beside.senate)?,
            congress: shared_if_any(alloc, beside.congress)?,
            text: Text::from_vec(Vec::from_slice(alloc, text.as_slice())?),
        })
    }

    /// Returns a copy of the text if the report is on these districts and these companions.
    fn text_for(
        &self,
        alloc: Global,
        kind: Kind,
        n: u16,
        districts: &Districts,
        beside: Companions<&Districts>,
    ) -> Option<Result<Text, AllocError>>
        ensures { IfSome result (λ copied. IfOk copied (IsReportText self.now
            (record { kind = kind; n = n; districts = districts.now; beside = companions_copied beside.entry }))) }
    {
        let is_of = self.kind == kind
            && self.n == n
            && is_same(&self.districts, districts)
            && is_same_if_any(&self.senate, beside.senate)
            && is_same_if_any(&self.congress, beside.congress);
        if !is_of {
            return None;
        }
        match Vec::from_slice(alloc, self.text.as_slice()) {
            Ok(text) => Some(Ok(Text::from_vec(text))),
            Err(error) => Some(Err(error)),
        }
    }
}

impl Catalogue {
    ghost use Rattle.std.specs.Prelude.{◌≡◌, IfSome, Some};
    ghost use Rattle.desk_store_catalogue.specs.Made.{AsksAgain};

    /// The answer to a query, where the last report that was made is kept. Memory comes only where memory for the answer was refused.
    pub fn ask_again(&self, alloc: Global, query: Query, last: &mut Option<CachedReport>) -> Reply
        requires { IfSome last.old (λ made. self.now.geography ≡ Some made) }
        ensures { AsksAgain self.now query result last.new }
    {
        match query {
            Query::Audit {
                plan,
                k,
                senate,
                congress,
            } => self.audited_again(alloc, &plan, k, Companions { senate, congress }, last),
            other => self.ask(alloc, other),
        }
    }

    /// Returns the answer to an audit of a plan's revision with the companions of the query, and
    /// caches the report.
    fn audited_again(
        &self,
        alloc: Global,
        name: &PlanName,
        k: u32,
        asked: Companions<(PlanName, u32)>,
        last: &mut Option<CachedReport>,
    ) -> Reply
        requires { IfSome last.old (λ made. self.now.geography ≡ Some made) }
        ensures { AsksAgain self.now (Query.Audit name.now k asked.senate asked.congress) result last.new }
    {
        let Some(geography) = self.owner() else {
            return Reply::Refused(Refusal::NotSealed);
        };
        let s = match self.subject(name, k, asked) {
            Ok(subject) => subject,
            Err(refusal) => return Reply::Refused(refusal),
        };
        match report_again(alloc, geography, s.kind, s.n, s.districts, s.beside, last) {
            Ok(text) => Reply::Audited(text),
            Err(_) => Reply::Refused(Refusal::Memory),
        }
    }
}

/// Returns the report on a plan's districts with its companions as JSON: the last report if it is
/// on the same districts, otherwise a new one, which replaces the last if memory for it is granted.
pub(crate) fn report_again(
    alloc: Global,
    geography: &Arc<Geography>,
    kind: Kind,
    n: u16,
    districts: &Districts,
    beside: Companions<&Districts>,
    last: &mut Option<CachedReport>,
) -> Result<Text, AllocError>
    requires auditable { IsAuditable geography.now.value kind n districts.now (companions_copied beside) }
    requires last { IfSome last.old (λ made. made ≡ geography.now.value) }
    ensures text { IfOk result (IsReportText geography.now.value
        (record { kind = kind; n = n; districts = districts.now; beside = companions_copied beside.entry })) }
    ensures last { IfSome last.new (λ made. made ≡ geography.now.value) }
{
    if let Some(made) = last {
        if let Some(copied) = made.text_for(alloc, kind, n, districts, beside) {
            return copied;
        }
    }
    let text = report(alloc, geography, kind, n, districts, beside)?;
    if let Ok(made) = CachedReport::new(alloc, geography, kind, n, districts, beside, &text) {
        *last = Some(made);
    }
    Ok(text)
}
