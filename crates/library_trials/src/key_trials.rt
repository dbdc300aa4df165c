//! Keys of rows, by the table of docs/dev/STORE-FORMAT.md.
ghost use Rattle.desk_store_rows.specs.RowKeys.{IsShort, row_of};

use desk_store_rows::RowKey;

/// Whether a row has these bytes as its key.
fn has_key(row: &RowKey, key: &[u8]) -> bool
    requires { IsShort (row_of row.now) }
{
    row.write().as_slice() == key
}

#[test]
fn rows_have_the_keys_of_the_format(rt: HostRuntime) {
    let rt = &rt;
    let alone = has_key(&RowKey::Counters, b"A")
        & has_key(&RowKey::Seal, b"S")
        & has_key(&RowKey::Version, b"V");
    let marks = has_key(&RowKey::Retired { plan: 258 }, b"D\0\0\0\0\0\0\x01\x02")
        & has_key(&RowKey::Begun { load: 3 }, b"L\0\0\0\0\0\0\0\x03");
    let held = has_key(
        &RowKey::Holding {
            plan: 1,
            number: 770,
        },
        b"H\0\0\0\0\0\0\0\x01\0\0\0\0\0\0\x03\x02",
    ) & has_key(&RowKey::HolderCount { number: 5 }, b"K\0\0\0\0\0\0\0\x05");
    let plans = has_key(&RowKey::Named { name: b"a-1" }, b"Pa-1")
        & has_key(
            &RowKey::Part {
                plan: 1,
                revision: 260,
                index: 2,
            },
            b"R\0\0\0\0\0\0\0\x01\0\0\x01\x04\x02",
        );
    let loaded = has_key(
        &RowKey::Block { load: 1, place: 2 },
        b"g\0\0\0\0\0\0\0\x01b\0\0\0\x02",
    ) & has_key(
        &RowKey::Pair { load: 1, place: 2 },
        b"g\0\0\0\0\0\0\0\x01p\0\0\0\x02",
    );
    let pieces = has_key(
        &RowKey::Chunk {
            number: 9,
            piece: 259,
        },
        b"k\0\0\0\0\0\0\0\x09\x01\x03",
    );
    holds!(rt; alone & marks & held & plans & loaded & pieces);
}

#[test]
fn keys_of_the_format_are_read_as_their_rows(rt: HostRuntime) {
    let rt = &rt;
    let alone = matches!(RowKey::read(b"A"), Some(RowKey::Counters))
        & matches!(RowKey::read(b"S"), Some(RowKey::Seal))
        & matches!(RowKey::read(b"V"), Some(RowKey::Version));
    let marks = matches!(
        RowKey::read(b"D\0\0\0\0\0\0\x01\x02"),
        Some(RowKey::Retired { plan: 258 })
    ) & matches!(
        RowKey::read(b"L\0\0\0\0\0\0\0\x03"),
        Some(RowKey::Begun { load: 3 })
    );
    let held = matches!(
        RowKey::read(b"H\0\0\0\0\0\0\0\x01\0\0\0\0\0\0\x03\x02"),
        Some(RowKey::Holding {
            plan: 1,
            number: 770
        })
    ) & matches!(
        RowKey::read(b"K\0\0\0\0\0\0\0\x05"),
        Some(RowKey::HolderCount { number: 5 })
    );
    let part = matches!(
        RowKey::read(b"R\0\0\0\0\0\0\0\x01\0\0\x01\x04\x02"),
        Some(RowKey::Part {
            plan: 1,
            revision: 260,
            index: 2
        })
    );
    let loaded = matches!(
        RowKey::read(b"g\0\0\0\0\0\0\0\x01b\0\0\0\x02"),
        Some(RowKey::Block { load: 1, place: 2 })
    ) & matches!(
        RowKey::read(b"g\0\0\0\0\0\0\0\x01p\0\0\0\x02"),
        Some(RowKey::Pair { load: 1, place: 2 })
    );
    let piece = matches!(
        RowKey::read(b"k\0\0\0\0\0\0\0\x09\x01\x03"),
        Some(RowKey::Chunk {
            number: 9,
            piece: 259
        })
    );
    let name = match RowKey::read(b"Pa-1") {
        Some(RowKey::Named { name }) => name == b"a-1".as_slice(),
        _ => false,
    };
    let none = RowKey::read(b"").is_none()
        & RowKey::read(b"A\0").is_none()
        & RowKey::read(b"L\0\0\0\0\0\0\x03").is_none()
        & RowKey::read(b"g\0\0\0\0\0\0\0\x01c\0\0\0\x02").is_none();
    holds!(rt; alone & marks & held & part & loaded & piece & name & none);
}
