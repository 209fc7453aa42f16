use crate::{RESERVED_ROWS, Row, SYMBOL_ROWS, Table, reserved, symbols};
use std::test::Fail;

#[test]
fn each_symbol_stands_where_it_is_found(rt: HostRuntime) -> Result<(), Fail> {
    let table = symbols();
    for (i, row) in SYMBOL_ROWS.iter().enumerate() {
        assert_eq!(rt; table.find(row.name.as_bytes()), Some(i));
        assert_eq!(rt; table.get(i).code, row.code);
    }
    for name in ["", "<-", "--", "==>", "\"", "theory"] {
        assert_eq!(rt; table.find(name.as_bytes()), None);
    }
    Ok(())
}

#[test]
fn each_reserved_word_stands_where_it_is_found(rt: HostRuntime) -> Result<(), Fail> {
    let table = reserved();
    for (i, row) in RESERVED_ROWS.iter().enumerate() {
        assert_eq!(rt; table.find(row.name.as_bytes()), Some(i));
        assert_eq!(rt; table.get(i).code, row.code);
    }
    for name in ["", "A", "Sucs", "suc", "versio", "zz"] {
        assert_eq!(rt; table.find(name.as_bytes()), None);
    }
    Ok(())
}

#[test]
fn names_that_do_not_rise_make_no_table(rt: HostRuntime) -> Result<(), Fail> {
    let twice = [Row { name: "a", code: 1 }, Row { name: "a", code: 2 }];
    let falling = [
        Row {
            name: "ab",
            code: 1,
        },
        Row { name: "a", code: 2 },
    ];
    let rising = [
        Row { name: "a", code: 1 },
        Row {
            name: "ab",
            code: 2,
        },
    ];
    let made: Option<Table<'_, 2>> = Table::new(&twice);
    assert!(rt; made.is_none());
    let made: Option<Table<'_, 2>> = Table::new(&falling);
    assert!(rt; made.is_none());
    let made: Option<Table<'_, 2>> = Table::new(&rising);
    assert!(rt; made.is_some());
    Ok(())
}
