//! A desk that doesn't change: what is shown.
ghost use Rattle.std.specs.Prelude.{◌≡◌, ℕ, ◌<◌, List, [], IfOk, IfErr, IsSome, MatchResult, Some, Ok, Err};
ghost use Rattle.std.specs.Option.{option_map, option_copied};
ghost use Rattle.std.specs.FinMap as map_of;
ghost use Rattle.desk_model.specs.Ranges.{ranges_in};
ghost use Rattle.desk_model.specs.claim.Step.{blocks_text as text_of_blocks};
ghost use Rattle.desk_model.specs.Companions.{companions_copied};
ghost use Rattle.desk_model.specs.claim.Subject.{revision_of_kind as revision_of_kind_of, companion_of, companions_of, subject_of};
ghost use Rattle.desk_store_catalogue.specs.claim.Audits.{AskMay};
ghost use Rattle.desk_store_catalogue.specs.claim.Accepting.{IsAfter};
ghost use Rattle.desk_store_catalogue.specs.Accepting.{IsRevisable, StepRefuses};
ghost use Rattle.desk_store_catalogue.specs.Drafts.{IsDrafted};
ghost use Rattle.desk_store_catalogue.specs.Kept.{AreWhole, IsRevision, IsWhole, ListsBlocks, revision_in};
ghost use Rattle.desk_store_catalogue.specs.Made.{AreCompanions, IsCompanion, IsSubject, subject_seen};
ghost use Rattle.desk_store_catalogue.specs.Patches.{HasNext, MayHaveNext};

use crate::blocks::blocks_text;
use crate::laws::ranges_are_within;
use crate::patch::{PatchResult, patched_districts};
use crate::posted::districts_of;
use crate::report::report;
use crate::{Span, changed_counties};
use baf_text::writing::write;
use desk_model::command::{Command, Query};
use desk_model::companions::Companions;
use desk_model::geography::Geography;
use desk_model::kind::Kind;
use desk_model::name::PlanName;
use desk_model::ranges::CountyRange;
use desk_model::reply::{Refusal, Reply};
use desk_model::size::PlanSize;
use desk_model::text::Text;
use desk_store_lists::Districts;
use desk_store_plans::entry::{Entry, REVISION_LIMIT};
use desk_store_plans::plans::Plans;
use std::alloc::{AllocError, Global};
use std::marker::Model;
use std::sync::Arc;

/// A desk has this many plans at most.
pub const PLAN_LIMIT: usize = 65_535;

/// A geography or none, with the text that lists its blocks where that is kept, and plans by their names. Catalogues share what didn't
/// change between them.
#[derive(Drop)]
pub struct Catalogue {
    geography: Option<Arc<Geography>>,
    blocks: Option<Arc<Text>>,
    plans: Plans,
    ghost lists: { ListsBlocks (option_map (λ g. g.value) geography) (option_map (λ t. t.value) blocks) },
}

impl Model for Catalogue {
    ghost use Rattle.std.specs.Option.{option_map};
    ghost use Rattle.desk_model.specs.claim.Desk.{Desk};
    ghost use Rattle.desk_store_catalogue.specs.Codes.{coded_desk};

    ghost Value = { Desk };

    ghost coded = { coded_desk };

    ghost use Rattle.desk_store_catalogue.specs.Kept.{AreWhole};

    ghost view = { λ a. record { geography = option_map (λ g. g.value) a.geography; plans = a.plans } };

    ghost invariant = { λ a. AreWhole (option_map (λ g. g.value) a.geography) a.plans };
}

/// What an audit judges, where it lies in a catalogue.
#[derive(Clone, Copy)]
pub(crate) struct Subject<'a> {
    pub(crate) kind: Kind,
    pub(crate) n: u16,
    pub(crate) districts: &'a Districts,
    pub(crate) beside: Companions<&'a Districts>,
}

/// The catalogue after a command, and for each county whether the command changes it. No county
/// changes unless an existing plan gets a revision.
#[derive(Drop)]
pub struct Draft {
    pub catalogue: Catalogue,
    pub changes: Vec<bool>,
}

/// The catalogue after a command that gives no existing plan a revision.
fn unchanged(alloc: Global, after: Result<Catalogue, Refusal>) -> Result<Draft, Refusal>
    ensures { MatchResult result (λ draft. (after ≡ Ok draft.catalogue) × (draft.changes.items ≡ [])) (λ refusal. after ≡ Err refusal) }
{
    match after {
        Ok(catalogue) => Ok(Draft {
            catalogue,
            changes: Vec::new(alloc),
        }),
        Err(refusal) => Err(refusal),
    }
}

impl Catalogue {
    /// A catalogue with no plan.
    pub fn new(geography: Option<Arc<Geography>>) -> Catalogue
        ensures { result ≡ record { geography = option_map (λ g. g.value) geography; plans = map_of.empty } }
    {
        Catalogue {
            geography,
            blocks: None,
            plans: Plans::new(),
        }
    }

    /// A catalogue of plans that were read back: each revision has a district for each block.
    pub fn restored(geography: Option<Arc<Geography>>, plans: Plans) -> Catalogue
        requires { AreWhole (option_map (λ g. g.value) geography) plans }
        ensures { result ≡ record { geography = option_map (λ g. g.value) geography; plans = plans } }
    {
        Catalogue {
            geography,
            blocks: None,
            plans,
        }
    }

    /// Caches the text that lists the blocks, if memory for it is granted: a geography never
    /// changes. What is shown stays the same.
    pub fn keep_blocks(&mut self, alloc: Global)
        ensures { self.new ≡ self.old }
    {
        let Some(geography) = &self.geography else {
            return;
        };
        if let Ok(text) = kept_text(alloc, geography) {
            self.blocks = Some(text);
        }
    }

    /// The geography that is sealed.
    pub fn geography(&self) -> Option<&Geography>
        ensures { option_copied result ≡ self.now.geography }
    {
        match &self.geography {
            Some(geography) => Some(geography),
            None => None,
        }
    }

    /// The counties of the geography that is sealed, rising; none where there is none.
    pub fn counties(&self) -> &[CountyRange]
        ensures { result.now ≡ ranges_in self.now.geography }
    {
        match self.geography() {
            Some(geography) => geography.counties(),
            None => &[],
        }
    }

    /// The owner of the geography that is sealed.
    pub(crate) fn owner(&self) -> Option<&Arc<Geography>>
        ensures { option_map (λ g. g.value) (option_copied result) ≡ self.now.geography }
    {
        self.geography.as_ref()
    }

    /// Revision `k` of a plan, from 1: the district of each block.
    pub fn districts(&self, name: &PlanName, k: u32) -> Option<&Districts>
        ensures { IsRevision self.now.geography (revision_in (map_of.get self.now.plans name.now) k) (option_copied result) }
    {
        let entry = self.plans.get(name)?;
        entry.revision(k)
    }

    /// Each revision has a district for each block: a law, with nothing to run.
    pub fn revisions_are_whole(&self)
        ensures { (name : List ℕ) (k : ℕ) → IsWhole self.now.geography (revision_in (map_of.get self.now.plans name) k) }
    {
        let _ = &self.geography;
    }

    /// The answer to a query; Memory only where memory for it was refused.
    pub fn ask(&self, alloc: Global, query: Query) -> Reply
        ensures { AskMay self.now query result }
    {
        match query {
            Query::Plans => match self.plans.rows(alloc) {
                Ok(rows) => Reply::Plans(rows),
                Err(_) => Reply::Refused(Refusal::Memory),
            },
            Query::Blocks => self.blocks(alloc),
            Query::Revision { plan, k } => self.revision(alloc, &plan, k),
            Query::Audit {
                plan,
                k,
                senate,
                congress,
            } => self.audited(alloc, &plan, k, Companions { senate, congress }),
        }
    }

    /// The answer on the blocks.
    fn blocks(&self, alloc: Global) -> Reply
        ensures { AskMay self.now Query.Blocks result }
    {
        let Some(geography) = self.geography() else {
            return Reply::Refused(Refusal::NotSealed);
        };
        match self.listed(alloc, geography) {
            Ok(text) => Reply::Blocks(Text::from_vec(text)),
            Err(_) => Reply::Refused(Refusal::Memory),
        }
    }

    /// The text that lists the blocks: a copy of the kept one, or else made.
    fn listed(&self, alloc: Global, geography: &Geography) -> Result<Vec<u8>, AllocError>
        requires { self.now.geography ≡ Some geography.now }
        ensures { IfOk result (λ text. text.items ≡ text_of_blocks geography.now) }
    {
        match &self.blocks {
            Some(text) => Vec::from_slice(alloc, text.as_slice()),
            None => blocks_text(alloc, geography),
        }
    }

    /// The answer on a revision of a plan.
    fn revision(&self, alloc: Global, name: &PlanName, k: u32) -> Reply
        ensures { AskMay self.now (Query.Revision name.now k) result }
    {
        let Some(geography) = self.geography() else {
            return Reply::Refused(Refusal::NotSealed);
        };
        let Some(entry) = self.plans.get(name) else {
            return Reply::Refused(Refusal::NoPlan);
        };
        let Some(districts) = entry.revision(k) else {
            return Reply::Refused(Refusal::NoRevision);
        };
        let Ok(list) = districts.to_vec(alloc) else {
            return Reply::Refused(Refusal::Memory);
        };
        match write(alloc, list.as_slice(), geography, entry.kind()) {
            Ok(text) => Reply::Baf(Text::from_vec(text)),
            Err(_) => Reply::Refused(Refusal::Memory),
        }
    }

    /// Revision `j` of a plan of the kind, from 1.
    fn revision_of_kind(&self, kind: Kind, name: &PlanName, j: u32) -> Option<&Districts>
        ensures { IsRevision self.now.geography (revision_of_kind_of kind (map_of.get self.now.plans name.now) j) (option_copied result) }
    {
        let entry = self.plans.get(name)?;
        if entry.kind() != kind {
            return None;
        }
        entry.revision(j)
    }

    /// The districts of the companion that is asked for, if one is, of a plan of the kind.
    fn companion(
        &self,
        beside: Kind,
        kind: Kind,
        asked: Option<(PlanName, u32)>,
    ) -> Result<Option<&Districts>, Refusal>
        ensures { MatchResult result (λ found. IsCompanion self.now beside kind asked (option_copied found))
            (λ refusal. companion_of self.now beside kind asked ≡ Err refusal) }
    {
        let Some((name, j)) = asked else {
            return Ok(None);
        };
        if !kind.takes(beside) {
            return Err(Refusal::BadCompanion);
        }
        match self.revision_of_kind(beside, &name, j) {
            Some(districts) => Ok(Some(districts)),
            None => Err(Refusal::BadCompanion),
        }
    }

    /// The districts of the companions that are asked for, of a plan of the kind.
    fn companions(
        &self,
        kind: Kind,
        asked: Companions<(PlanName, u32)>,
    ) -> Result<Companions<&Districts>, Refusal>
        ensures { MatchResult result (λ found. AreCompanions self.now kind asked (companions_copied found))
            (λ refusal. companions_of self.now kind asked ≡ Err refusal) }
    {
        let senate = self.companion(Kind::Senate, kind, asked.senate)?;
        let congress = self.companion(Kind::Congress, kind, asked.congress)?;
        Ok(Companions { senate, congress })
    }

    /// Returns the subject of an audit: a plan's revision and the companions of the query.
    pub(crate) fn subject(
        &self,
        name: &PlanName,
        k: u32,
        asked: Companions<(PlanName, u32)>,
    ) -> Result<Subject<'_>, Refusal>
        ensures { MatchResult result (λ s. IsSubject self.now name.now k asked (subject_seen s.kind s.n s.districts.now s.beside))
            (λ refusal. subject_of self.now (map_of.get self.now.plans name.now) k asked ≡ Err refusal) }
    {
        let Some(entry) = self.plans.get(name) else {
            return Err(Refusal::NoPlan);
        };
        let Some(districts) = entry.revision(k) else {
            return Err(Refusal::NoRevision);
        };
        let kind = entry.kind();
        let beside = self.companions(kind, asked)?;
        Ok(Subject {
            kind,
            n: entry.n(),
            districts,
            beside,
        })
    }

    /// Returns the answer to an audit of a plan's revision with the companions of the query.
    fn audited(
        &self,
        alloc: Global,
        name: &PlanName,
        k: u32,
        asked: Companions<(PlanName, u32)>,
    ) -> Reply
        ensures { AskMay self.now (Query.Audit name.now k asked.senate asked.congress) result }
    {
        let Some(geography) = self.geography() else {
            return Reply::Refused(Refusal::NotSealed);
        };
        let s = match self.subject(name, k, asked) {
            Ok(subject) => subject,
            Err(refusal) => return Reply::Refused(refusal),
        };
        match report(alloc, geography, s.kind, s.n, s.districts, s.beside) {
            Ok(text) => Reply::Audited(text),
            Err(_) => Reply::Refused(Refusal::Memory),
        }
    }

    /// Moves the plan that the last command left pending into the tree, if memory for it is
    /// granted. What is shown stays the same.
    pub fn settle(&mut self, alloc: Global)
        ensures { self.new ≡ self.old }
    {
        self.plans.settle(alloc);
    }

    /// The catalogue after a command: Ok where it is accepted, and else its refusal; Memory only where memory for
    /// the catalogue was refused.
    pub fn after(&self, alloc: Global, command: &Command) -> Result<Catalogue, Refusal>
        ensures { MatchResult result (IsAfter self.now command.now) (StepRefuses self.now command.now) }
    {
        match self.draft(alloc, command) {
            Ok(draft) => Ok(draft.catalogue),
            Err(refusal) => Err(refusal),
        }
    }

    /// The catalogue after a command, and which of the counties it changes. Refusals come as from `after`.
    pub fn draft(&self, alloc: Global, command: &Command) -> Result<Draft, Refusal>
        ensures { MatchResult result (IsDrafted self.now command.now) (StepRefuses self.now command.now) }
    {
        if self.geography.is_none() {
            return Err(Refusal::NotSealed);
        }
        match command {
            Command::Create { plan, size } => unchanged(alloc, self.with_plan(alloc, *plan, *size)),
            Command::Whole { plan, after, body } => self.with_whole(alloc, plan, *after, body),
            Command::Counties { plan, after, body } => self.with_counties(
                alloc, plan, *after, body,
            ),
            Command::Retire { plan } => unchanged(alloc, self.without_plan(alloc, plan)),
            Command::Fork { plan, from } => unchanged(alloc, self.with_fork(alloc, *plan, *from)),
        }
    }

    /// The catalogue with one more plan.
    fn with_plan(&self, alloc: Global, name: PlanName, size: PlanSize) -> Result<Catalogue, Refusal>
        requires { IsSome self.now.geography }
        ensures { MatchResult result (IsAfter self.now (Command.Create name size)) (StepRefuses self.now (Command.Create name size)) }
    {
        if self.plans.get(&name).is_some() {
            return Err(Refusal::PlanExists);
        }
        if self.plans.len() >= PLAN_LIMIT {
            return Err(Refusal::Limit);
        }
        let Ok(plans) = self.plans.insert(alloc, Entry::new(name, size)) else {
            return Err(Refusal::Memory);
        };
        self.with_plans(plans)
    }

    /// The catalogue with one more plan, from a revision of another.
    fn with_fork(
        &self,
        alloc: Global,
        plan: PlanName,
        from: (PlanName, u32),
    ) -> Result<Catalogue, Refusal>
        requires { IsSome self.now.geography }
        ensures { MatchResult result (IsAfter self.now (Command.Fork plan from)) (StepRefuses self.now (Command.Fork plan from)) }
    {
        if self.plans.get(&plan).is_some() {
            return Err(Refusal::PlanExists);
        }
        if self.plans.len() >= PLAN_LIMIT {
            return Err(Refusal::Limit);
        }
        let Some(source) = self.plans.get(&from.0) else {
            return Err(Refusal::NoPlan);
        };
        let Some(districts) = source.revision(from.1) else {
            return Err(Refusal::NoRevision);
        };
        let Ok(entry) = source.forked(alloc, plan, districts) else {
            return Err(Refusal::Memory);
        };
        let Ok(plans) = self.plans.insert(alloc, entry) else {
            return Err(Refusal::Memory);
        };
        self.with_plans(plans)
    }

    /// Returns the plan with this name if it has `after` revisions and may have one more.
    fn revisable(&self, name: &PlanName, after: u32) -> Result<&Entry, Refusal>
        requires { IsSome self.now.geography }
        ensures { MatchResult result (λ entry. IsRevisable self.now name.now after entry.now) (λ refusal. (body : List ℕ)
            → StepRefuses self.now (Command.Whole name.now after body) refusal × StepRefuses self.now (Command.Counties name.now after body) refusal) }
    {
        let Some(entry) = self.plans.get(name) else {
            return Err(Refusal::NoPlan);
        };
        let current = entry.count();
        if after != current {
            return Err(Refusal::Stale { current });
        }
        if current >= REVISION_LIMIT {
            return Err(Refusal::Limit);
        }
        Ok(entry)
    }

    /// The catalogue with a revision of a plan that a body says whole.
    fn with_whole(
        &self,
        alloc: Global,
        name: &PlanName,
        after: u32,
        body: &Text,
    ) -> Result<Draft, Refusal>
        ensures { MatchResult result (IsDrafted self.now (Command.Whole name.now after body.now)) (StepRefuses self.now (Command.Whole name.now after body.now)) }
    {
        let Some(geography) = self.geography() else {
            return Err(Refusal::NotSealed);
        };
        let entry = self.revisable(name, after)?;
        let list = districts_of(alloc, body.as_slice(), geography, entry.n())?;
        let Ok(districts) = Districts::new(alloc, list.as_slice(), entry.revision(after)) else {
            return Err(Refusal::Memory);
        };
        let end = list.len();
        let span = Span { first: 0, end };
        self.with_revision(alloc, geography, entry, PatchResult { districts, span })
    }

    /// The catalogue with a revision of a plan in which only the counties change that a body lists.
    fn with_counties(
        &self,
        alloc: Global,
        name: &PlanName,
        after: u32,
        body: &Text,
    ) -> Result<Draft, Refusal>
        ensures { MatchResult result (IsDrafted self.now (Command.Counties name.now after body.now)) (StepRefuses self.now (Command.Counties name.now after body.now)) }
    {
        let Some(geography) = self.geography() else {
            return Err(Refusal::NotSealed);
        };
        let entry = self.revisable(name, after)?;
        let last = entry.revision(after);
        let made = patched_districts(alloc, body.as_slice(), geography, entry.n(), last)?;
        self.with_revision(alloc, geography, entry, made)
    }

    /// Returns the catalogue with one more revision of an existing plan, and which counties it
    /// changes.
    fn with_revision(
        &self,
        alloc: Global,
        geography: &Geography,
        entry: &Entry,
        made: PatchResult,
    ) -> Result<Draft, Refusal>
        requires { MayHaveNext self.now geography.now entry.now made }
        ensures { HasNext self.now entry.now made.districts result }
    {
        ranges_are_within();
        let ranges = self.counties();
        let last = entry.revision(entry.count());
        let Ok(changes) = changed_counties(alloc, ranges, last, &made.districts, made.span) else {
            return Err(Refusal::Memory);
        };
        let Ok(entry) = entry.with_revision(alloc, made.districts) else {
            return Err(Refusal::Memory);
        };
        let Ok(plans) = self.plans.replace(alloc, entry) else {
            return Err(Refusal::Memory);
        };
        let catalogue = self.with_plans(plans)?;
        Ok(Draft { catalogue, changes })
    }

    /// The catalogue without a plan.
    fn without_plan(&self, alloc: Global, name: &PlanName) -> Result<Catalogue, Refusal>
        requires { IsSome self.now.geography }
        ensures { MatchResult result (IsAfter self.now (Command.Retire name.now)) (StepRefuses self.now (Command.Retire name.now)) }
    {
        if self.plans.get(name).is_none() {
            return Err(Refusal::NoPlan);
        }
        let Ok(plans) = self.plans.remove(alloc, name) else {
            return Err(Refusal::Memory);
        };
        self.with_plans(plans)
    }

    /// The catalogue of the same geography with these plans.
    fn with_plans(&self, plans: Plans) -> Result<Catalogue, Refusal>
        requires { AreWhole self.now.geography plans }
        ensures ok { IfOk result (λ next. next ≡ record self.now { plans = plans }) }
        ensures err { IfErr result (λ refusal. refusal ≡ Refusal.Memory) }
    {
        let (Ok(geography), Ok(blocks)) = (shared(&self.geography), shared(&self.blocks)) else {
            return Err(Refusal::Memory);
        };
        Ok(Catalogue {
            geography,
            blocks,
            plans,
        })
    }
}

/// The text that lists a geography's blocks, to be shared.
fn kept_text(alloc: Global, geography: &Geography) -> Result<Arc<Text>, AllocError>
    ensures { IfOk result (λ text. text.value ≡ text_of_blocks geography.now) }
{
    let text = Text::from_vec(blocks_text(alloc, geography)?);
    Ok(Arc::new(alloc, text)?)
}

/// The same value, shared, or none.
fn shared<T: Drop>(value: &Option<Arc<T>>) -> Result<Option<Arc<T>>, AllocError>
    ensures { IfOk result (λ same. option_map (λ g. g.value) same ≡ option_map (λ g. g.value) value.now) }
{
    match value {
        Some(value) => Ok(Some(value.clone()?)),
        None => Ok(None),
    }
}
