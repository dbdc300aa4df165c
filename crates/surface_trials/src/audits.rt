//! The audits of Iowa Code 42.4, by their worked examples.
use crate::samples::{COUNTY_PLAN, DIAGONAL, sample_state};
use audit_contiguity::breaks::breaks;
use audit_contiguity::{Break, Gap};
use audit_population::{congress_breaks, mean_breaks, populations, range_breaks};
use audit_report::audit::audit;
use audit_report::workers::audit_with;
use audit_splits_nesting::{cities_in_county, divided_cities, divided_counties, nesting_breaks};
use desk_model::gate::NoGate;
use desk_model::kind::Kind;

/// The report of a house plan without companions.
const HOUSE: &str =
    "{\"broken\":[],\"cities\":[\"00100\"],\"cities_in_county\":[],\"congress\":[],\"contiguity\":[],\"counties\":[],\"districts\":2,\"divided_by_congress\":null,\"kind\":\"house\",\"nesting\":[],\"not_asked\":[\"42.4.6\"],\"population\":2000,\"populations\":[1010,990],\"range\":null,\"unassigned\":0}";

/// The report of the diagonal as a senate plan.
const SENATE: &str =
    "{\"broken\":[\"42.4.3\"],\"cities\":[\"00100\"],\"cities_in_county\":[\"00100\"],\"congress\":[],\"contiguity\":[{\"district\":1,\"from\":\"190010001001001\",\"to\":\"190030001001002\"},{\"district\":2,\"from\":\"190010001001002\",\"to\":\"190030001001001\"}],\"counties\":[\"001\",\"003\"],\"districts\":2,\"divided_by_congress\":null,\"kind\":\"senate\",\"nesting\":[],\"not_asked\":[],\"population\":2000,\"populations\":[1000,1000],\"range\":null,\"unassigned\":0}";

#[test]
fn people_are_added_up(rt: HostRuntime) {
    let rt = &rt;
    let state = sample_state(rt, rt.alloc());
    let people = populations(rt.alloc(), &state, 2, &COUNTY_PLAN).expect(rt, "no memory");
    holds!(rt; (people.state == 2000) & (people.districts.as_slice() == [1010, 990].as_slice()));
}

#[test]
fn deviations_break_a_clause(rt: HostRuntime) {
    let rt = &rt;
    let alloc = rt.alloc();
    let mean = !mean_breaks(&[1010, 990], 2000) & mean_breaks(&[1011, 989], 2000);
    let within = range_breaks(&[1011, 989]).is_none() & range_breaks(&[1050, 1000]).is_none();
    let beyond = match range_breaks(&[1010, 990, 0]) {
        Some(extremes) => (extremes.most == 1) & (extremes.least == 3),
        None => false,
    };
    holds!(rt; mean & within & beyond);
    let none = congress_breaks(alloc, &[1010, 990], 2000).expect(rt, "no memory");
    let both = congress_breaks(alloc, &[1011, 989], 2000).expect(rt, "no memory");
    holds!(rt; none.is_empty() & (both.as_slice() == [1, 2].as_slice()));
}

/// Whether a district is parted between these blocks, by their numbers.
fn is_parted(found: &Break, district: u16, from: u64, to: u64) -> bool {
    match found.gap {
        Some(Gap { from: a, to: b }) => {
            (found.district == district) & (a.number() == from) & (b.number() == to)
        }
        None => false,
    }
}

#[test]
fn districts_hold_together(rt: HostRuntime) {
    let rt = &rt;
    let alloc = rt.alloc();
    let state = sample_state(rt, alloc);
    let parted = breaks(alloc, &DIAGONAL, &state, 2).expect(rt, "no memory");
    let is_so = match parted.as_slice() {
        [one, two] => {
            is_parted(one, 1, 190010001001001, 190030001001002)
                & is_parted(two, 2, 190010001001002, 190030001001001)
        }
        _ => false,
    };
    let empty = breaks(alloc, &COUNTY_PLAN, &state, 3).expect(rt, "no memory");
    let third = match empty.as_slice() {
        [one] => (one.district == 3) & one.gap.is_none(),
        _ => false,
    };
    holds!(rt; is_so & third);
}

#[test]
fn counties_and_cities_are_divided(rt: HostRuntime) {
    let rt = &rt;
    let alloc = rt.alloc();
    let state = sample_state(rt, alloc);
    let counties = divided_counties(alloc, &state, &DIAGONAL).expect(rt, "no memory");
    let cities = divided_cities(alloc, &state, &COUNTY_PLAN).expect(rt, "no memory");
    let within = cities_in_county(alloc, &state, &DIAGONAL).expect(rt, "no memory");
    let none = cities_in_county(alloc, &state, &COUNTY_PLAN).expect(rt, "no memory");
    holds!(rt; (counties.as_slice() == [1, 3].as_slice()) & (cities.as_slice() == [100].as_slice()));
    holds!(rt; (within.as_slice() == [100].as_slice()) & none.is_empty());
}

#[test]
fn districts_are_nested(rt: HostRuntime) {
    let rt = &rt;
    let alloc = rt.alloc();
    let parted = nesting_breaks(alloc, 2, &COUNTY_PLAN, &DIAGONAL).expect(rt, "no memory");
    let nested = nesting_breaks(alloc, 2, &COUNTY_PLAN, &[1, 1, 1, 1]).expect(rt, "no memory");
    holds!(rt; (parted.as_slice() == [1, 2].as_slice()) & nested.is_empty());
}

#[test]
fn a_plan_is_reported_on(rt: HostRuntime) {
    let rt = &rt;
    let alloc = rt.alloc();
    let state = sample_state(rt, alloc);
    let report = audit(alloc, &state, Kind::House, 2, &COUNTY_PLAN, None, None);
    let text = report.expect(rt, "no memory").to_json(alloc);
    holds!(rt; text.expect(rt, "no memory").as_str() == HOUSE);
    let report = audit_with(
        rt,
        alloc,
        1,
        &NoGate,
        &state,
        Kind::Senate,
        2,
        &DIAGONAL,
        None,
        None,
    );
    let text = report.expect(rt, "no memory").to_json(alloc);
    holds!(rt; text.expect(rt, "no memory").as_str() == SENATE);
}
