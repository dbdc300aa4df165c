//! Districts in pieces.
use desk_store_lists::Districts;
use std::alloc::Global;
use std::process::Abort;

/// Districts that are equal to their places, except at one place.
fn listed<R: Abort>(rt: &R, alloc: Global, count: u16, other: u16) -> Vec<u16> {
    let mut list = Vec::new(alloc);
    for place in 0..count {
        let district = if place == other { 7_777 } else { place };
        list.push(district).expect(rt, "no memory");
    }
    list
}

/// These districts, over the last ones.
fn made<R: Abort>(rt: &R, alloc: Global, list: &[u16], last: Option<&Districts>) -> Districts {
    let districts = Districts::new(alloc, list, last).expect(rt, "no memory");
    let all = districts.to_vec(alloc).expect(rt, "no memory");
    holds!(rt; all.as_slice() == list);
    districts
}

/// Returns whether both have the same `count` districts from a place on.
fn is_same(one: &Districts, other: &Districts, first: usize, count: usize) -> bool {
    first <= 2_000
        && count <= 2_000
        && first + count <= one.len()
        && first + count <= other.len()
        && one.is_same_in(other, first, count)
}

/// Numbers of districts about the sizes of one and two pieces.
static COUNTS: [u16; 4] = [1_023, 1_024, 1_025, 1_300];

/// Places at the ends of pieces.
static ENDS: [u16; 4] = [0, 511, 512, 1_022];

/// Asserts that the districts with another one at a place differ from these only there.
fn differs<R: Abort>(rt: &R, alloc: Global, last: &Districts, count: u16, other: u16) {
    let next = made(rt, alloc, &listed(rt, alloc, count, other), Some(last));
    let at = usize::from(other);
    let before = is_same(last, &next, 0, at) & !is_same(last, &next, 0, at + 1);
    let rest = 1_022usize.saturating_sub(at);
    let after = is_same(last, &next, at + 1, rest) & !is_same(last, &next, at, rest + 1);
    holds!(rt; before & after);
}

#[test]
fn one_district_differs(rt: HostRuntime) {
    let rt = &rt;
    let alloc = rt.alloc();
    for count in &COUNTS {
        let last = made(rt, alloc, &listed(rt, alloc, *count, 2_000), None);
        holds!(rt; last.len() == usize::from(*count));
        for other in &ENDS {
            differs(rt, alloc, &last, *count, *other);
        }
    }
}

/// Whether a part of the districts is these.
fn is_part<R: Abort>(
    rt: &R,
    alloc: Global,
    districts: &Districts,
    first: usize,
    wanted: &[u16],
) -> bool {
    let count = wanted.len();
    assert!(rt; first <= 2_000 && count <= 2_000 && first + count <= districts.len());
    let part = districts.part(alloc, first, count).expect(rt, "no memory");
    part.as_slice() == wanted
}

#[test]
fn a_part_lies_across_pieces(rt: HostRuntime) {
    let rt = &rt;
    let alloc = rt.alloc();
    let districts = made(rt, alloc, &listed(rt, alloc, 1_300, 512), None);
    let across = is_part(rt, alloc, &districts, 510, &[510, 511, 7_777, 513]);
    let last = is_part(rt, alloc, &districts, 1_299, &[1_299]);
    holds!(rt; across & last & is_part(rt, alloc, &districts, 700, &[]));
}

/// Places at the ends of pieces, and the last one.
static OTHERS: [u16; 6] = [0, 511, 512, 1_023, 1_024, 1_299];

/// Asserts that listed districts from a place on, over those of their places, make another one at a place.
fn stands_over<R: Abort>(rt: &R, alloc: Global, first: u16, over: &[Option<u16>], other: u16) {
    let districts = made(rt, alloc, &listed(rt, alloc, 1_300, 2_000), None);
    let next = districts.with_listed(alloc, usize::from(first), over);
    let next = next.expect(rt, "no memory");
    let all = next.to_vec(alloc).expect(rt, "no memory");
    holds!(rt; all.as_slice() == listed(rt, alloc, 1_300, other).as_slice());
}

#[test]
fn listed_districts_stand_over_others(rt: HostRuntime) {
    let rt = &rt;
    let alloc = rt.alloc();
    for other in &OTHERS {
        stands_over(rt, alloc, *other, &[Some(7_777), None], *other);
    }
    stands_over(rt, alloc, 510, &[None, None, Some(7_777), None], 512);
    stands_over(rt, alloc, 1_300, &[Some(7_777)], 2_000);
}

/// The district of a place in a list that is kept as one district, as runs, as bytes, or as two
/// bytes for each block.
fn in_form(form: u16, place: u16) -> u16 {
    match form {
        0 => 7,
        1 => place / 100,
        2 => place % 200,
        _ => place,
    }
}

/// The districts at these places of a list in a form.
fn formed<R: Abort>(rt: &R, alloc: Global, form: u16, from: u16, to: u16) -> Vec<u16> {
    let mut list = Vec::new(alloc);
    for place in from..to {
        list.push(in_form(form, place)).expect(rt, "no memory");
    }
    list
}

#[test]
fn each_form_holds_its_districts(rt: HostRuntime) {
    let rt = &rt;
    let alloc = rt.alloc();
    for form in 0..4u16 {
        let list = formed(rt, alloc, form, 0, 1_300);
        let within = formed(rt, alloc, form, 500, 1_100);
        let one = made(rt, alloc, list.as_slice(), None);
        for other in 0..4u16 {
            let list = formed(rt, alloc, other, 0, 1_300);
            let next = made(rt, alloc, list.as_slice(), Some(&one));
            let same = is_same(&one, &next, 0, 1_300);
            let part = is_part(rt, alloc, &one, 500, within.as_slice());
            holds!(rt; part & (same == (form == other)));
        }
    }
    let runs = made(rt, alloc, formed(rt, alloc, 1, 0, 1_300).as_slice(), None);
    let bytes = made(rt, alloc, formed(rt, alloc, 2, 0, 1_300).as_slice(), None);
    holds!(rt; is_same(&runs, &bytes, 0, 1) & !is_same(&runs, &bytes, 0, 2));
}
