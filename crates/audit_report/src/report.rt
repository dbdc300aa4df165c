//! The report of an audit.
ghost use Rattle.std.specs.Prelude.{◌≡◌, IfOk, string_bytes};
ghost use Rattle.serde_json.specs.View.{view, members_view};
ghost use Rattle.audit_report.specs.claim.ReportText.{report_data, report_text};
ghost use Rattle.audit_report.specs.Keys.{last_members, middle_members, first_members};

use crate::clause::Clause;
use crate::values::{
    breaks_value, cities_value, clauses_value, counties_value, districts_value, divided_value,
    people_value, range_value,
};
use audit_contiguity::breaks::Break;
use audit_population::deviations::Extremes;
use desk_model::kind::Kind;
use serde_json::{Map, Value, put};
use std::alloc::{AllocError, Global};
use std::marker::Model;

/// What an audit found. Each list rises, `broken` in the order of the clauses.
#[derive(Drop)]
pub struct Report {
    /// The clauses that apply to the kind of plan and are broken.
    pub broken: Vec<Clause>,
    /// The divided cities, by their PLACE codes: Iowa Code 42.4(2).
    pub cities: Vec<u32>,
    /// The cities that are divided within a county.
    pub cities_in_county: Vec<u32>,
    /// The districts for the congress that deviate from the ideal by more than one percent: Iowa Code 42.4(1)b.
    pub congress: Vec<u16>,
    /// The districts that don't hold together: Iowa Code 42.4(3).
    pub contiguity: Vec<Break>,
    /// The divided counties, from 0 to 999: Iowa Code 42.4(2).
    pub counties: Vec<u16>,
    /// The number of districts.
    pub districts: u16,
    /// The districts that the given congressional plan divides, if there is such a plan: Iowa Code
    /// 42.4(6).
    pub divided_by_congress: Option<Vec<u16>>,
    pub kind: Kind,
    /// The house districts that are not nested in the given senate plan: Iowa Code 42.4(6).
    pub nesting: Vec<u16>,
    /// The clauses that a senate plan is wanting for.
    pub not_asked: Vec<Clause>,
    /// The people of the state.
    pub population: u32,
    /// The people of each district, from 1 on.
    pub populations: Vec<u32>,
    /// The most and the least populous district, where they break the range: Iowa Code 42.4(1)a.
    pub range: Option<Extremes>,
    /// The number of unassigned blocks.
    pub unassigned: u32,
}

impl Model for Report {
    ghost use Rattle.std.specs.Prelude.{option_map};
    ghost use Rattle.audit_report.specs.claim.Figures.{Figures};

    ghost Value = { Figures };

    ghost view = { λ a. record {
      broken = a.broken.items;
      cities = a.cities.items;
      cities_in_county = a.cities_in_county.items;
      congress = a.congress.items;
      contiguity = a.contiguity.items;
      counties = a.counties.items;
      districts = a.districts;
      divided_by_congress = option_map (λ d. d.items) a.divided_by_congress;
      kind = a.kind;
      nesting = a.nesting.items;
      not_asked = a.not_asked.items;
      population = a.population;
      populations = a.populations.items;
      range = a.range;
      unassigned = a.unassigned;
    } };
}

impl Report {
    /// Puts in the keys from `not_asked` on.
    fn put_last(&self, alloc: Global, map: &mut Map<String, Value>) -> Result<(), AllocError>
        ensures { IfOk result (λ _. members_view map.new.entries ≡ last_members self.now (members_view map.old.entries)) }
    {
        put(map, alloc, "unassigned", Value::from(self.unassigned))?;
        put(map, alloc, "range", range_value(alloc, self.range)?)?;
        let populations = people_value(alloc, self.populations.as_slice())?;
        put(map, alloc, "populations", populations)?;
        put(map, alloc, "population", Value::from(self.population))?;
        put(
            map,
            alloc,
            "not_asked",
            clauses_value(alloc, self.not_asked.as_slice())?,
        )?;
        Ok(())
    }

    /// Puts in the keys from `counties` to `nesting`.
    fn put_middle(&self, alloc: Global, map: &mut Map<String, Value>) -> Result<(), AllocError>
        ensures { IfOk result (λ _. members_view map.new.entries ≡ middle_members self.now (members_view map.old.entries)) }
    {
        put(
            map,
            alloc,
            "nesting",
            districts_value(alloc, self.nesting.as_slice())?,
        )?;
        let kind = String::from_str(alloc, self.kind.name())?;
        put(map, alloc, "kind", Value::String(kind))?;
        let divided = divided_value(alloc, &self.divided_by_congress)?;
        put(map, alloc, "divided_by_congress", divided)?;
        put(map, alloc, "districts", Value::from(self.districts))?;
        put(
            map,
            alloc,
            "counties",
            counties_value(alloc, self.counties.as_slice())?,
        )?;
        Ok(())
    }

    /// Puts in the keys up to `contiguity`.
    fn put_first(&self, alloc: Global, map: &mut Map<String, Value>) -> Result<(), AllocError>
        ensures { IfOk result (λ _. members_view map.new.entries ≡ first_members self.now (members_view map.old.entries)) }
    {
        put(
            map,
            alloc,
            "contiguity",
            breaks_value(alloc, self.contiguity.as_slice())?,
        )?;
        put(
            map,
            alloc,
            "congress",
            districts_value(alloc, self.congress.as_slice())?,
        )?;
        let cities_in_county = cities_value(alloc, self.cities_in_county.as_slice())?;
        put(map, alloc, "cities_in_county", cities_in_county)?;
        put(
            map,
            alloc,
            "cities",
            cities_value(alloc, self.cities.as_slice())?,
        )?;
        put(
            map,
            alloc,
            "broken",
            clauses_value(alloc, self.broken.as_slice())?,
        )?;
        Ok(())
    }

    /// Returns the report as JSON. Each key is inserted before those already present.
    fn to_value(&self, alloc: Global) -> Result<Value, AllocError>
        ensures { IfOk result (λ v. view v ≡ report_data self.now) }
    {
        let mut map = Map::new(alloc);
        self.put_last(alloc, &mut map)?;
        self.put_middle(alloc, &mut map)?;
        self.put_first(alloc, &mut map)?;
        Ok(Value::Object(map))
    }

    /// The report as compact JSON, its keys in byte order, each always there.
    pub fn to_json(&self, alloc: Global) -> Result<String, AllocError>
        ensures { IfOk result (λ s. string_bytes s ≡ report_text self.now) }
    {
        let value = self.to_value(alloc)?;
        value.to_string(alloc)
    }
}
