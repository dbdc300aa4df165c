//! Names, sizes, numbers of blocks, and the bytes of a line.
use desk_model::block::{BlockId, BlockRow};
use desk_model::gate::{Gate, NoGate};
use desk_model::kind::Kind;
use desk_model::name::PlanName;
use desk_model::size::{District, PlanSize};
use field_text::{digits_exactly, fields, lines, number};

#[test]
fn a_plan_has_a_name_and_a_size(rt: HostRuntime) {
    let rt = &rt;
    let is_name = match PlanName::read(b"Az09._-") {
        Some(name) => name.as_slice() == b"Az09._-".as_slice(),
        None => false,
    };
    let longest = PlanName::read(&[b'a'; 64]).is_some() & PlanName::read(&[b'a'; 65]).is_none();
    let none = PlanName::read(b"").is_none() & PlanName::read(b"a b").is_none();
    holds!(rt; is_name & longest & none);
    let most: District = 999;
    let congress = PlanSize::read(Kind::Congress, 99).is_some()
        & PlanSize::read(Kind::Congress, 100).is_none();
    let house = match PlanSize::read(Kind::House, 999) {
        Some(size) => (size.n() == most) & (size.kind() == Kind::House),
        None => false,
    };
    holds!(rt; congress & house & PlanSize::read(Kind::Senate, 0).is_none());
}

#[test]
fn a_block_has_its_county(rt: HostRuntime) {
    let rt = &rt;
    let id = BlockId::from_number(190030001001002);
    let row = BlockRow {
        id,
        city: None,
        population: 495,
    };
    NoGate.pass(0, 0);
    holds!(rt; (row.id.county() == 3) & (row.id.state() == 19) & (id.number() == 190030001001002));
}

#[test]
fn a_text_has_lines_and_fields(rt: HostRuntime) {
    let rt = &rt;
    let mut all = lines(b"a|b|\r\nc");
    let first = match all.next_line() {
        Some(line) => (line.number == 1) & (line.bytes == b"a|b|".as_slice()),
        None => false,
    };
    let second = match all.next_line() {
        Some(line) => (line.number == 2) & (line.bytes == b"c".as_slice()),
        None => false,
    };
    holds!(rt; first & second & all.next_line().is_none());
    let mut parts = fields(b"a|b|");
    let a = parts.next_field() == Some(b"a".as_slice());
    let b = parts.next_field() == Some(b"b".as_slice());
    let last = parts.next_field() == Some(b"".as_slice());
    holds!(rt; a & b & last & parts.next_field().is_none());
    let numbers = (number(b"007", 3) == Some(7)) & (number(b"1234", 3) == None);
    let digits = (digits_exactly(b"007", 3) == Some(7)) & (digits_exactly(b"07", 3) == None);
    holds!(rt; numbers & digits & (number(b"", 3) == None));
}
