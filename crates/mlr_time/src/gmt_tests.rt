//! Worked seconds and their dates.
use crate::{sec2gmt, sec2gmtdate};
use mlr_spec::{InferOpts, NoMemory};
use mlr_value::{Bytes, MapValue, Value, append_text, from_data};
use std::alloc::Global;

/// What a value prints that was made of a text from data.
fn printed(value: &Value, alloc: Global) -> Result<Bytes, NoMemory> {
    let mut text = Bytes::new(alloc);
    append_text(value, &mut text)?;
    Ok(text)
}

#[test]
fn seconds_as_dates(rt: HostRuntime) -> Result<(), NoMemory> {
    let alloc = rt.alloc();
    let table: [(&[u8], &[u8], &[u8]); 21] = [
        (b"0", b"1970-01-01T00:00:00Z", b"1970-01-01"),
        (b"1500000000", b"2017-07-14T02:40:00Z", b"2017-07-14"),
        (b"-1", b"1969-12-31T23:59:59Z", b"1969-12-31"),
        (b"-86400", b"1969-12-31T00:00:00Z", b"1969-12-31"),
        (b"-86401", b"1969-12-30T23:59:59Z", b"1969-12-30"),
        (b"951782400", b"2000-02-29T00:00:00Z", b"2000-02-29"),
        (b"951868799", b"2000-02-29T23:59:59Z", b"2000-02-29"),
        (b"951868800", b"2000-03-01T00:00:00Z", b"2000-03-01"),
        (b"-2203891200", b"1900-03-01T00:00:00Z", b"1900-03-01"),
        (b"0x10", b"1970-01-01T00:00:16Z", b"1970-01-01"),
        (b"-62167219200", b"0000-01-01T00:00:00Z", b"0000-01-01"),
        (b"253402300799", b"9999-12-31T23:59:59Z", b"9999-12-31"),
        (b"-62167219201", b"-62167219201", b"-62167219201"),
        (b"253402300800", b"253402300800", b"253402300800"),
        (
            b"9223372036854775808",
            b"9223372036854775808",
            b"9223372036854775808",
        ),
        (b"1500000000.5", b"1500000000.5", b"1500000000.5"),
        (b"abc", b"abc", b"abc"),
        (b"2017-07-14", b"2017-07-14", b"2017-07-14"),
        (b"", b"", b""),
        (b"true", b"true", b"true"),
        (b"+3661", b"1970-01-01T01:01:01Z", b"1970-01-01"),
    ];
    for (i, row) in table.iter().enumerate() {
        let (text, time, date) = *row;
        let value = from_data(alloc, text, InferOpts::plain())?;
        let made = sec2gmt(alloc, value.copy(alloc)?)?;
        assert_eq!(rt; printed(&made, alloc)?.as_slice(), time, "at {i}");
        let made = sec2gmtdate(alloc, value)?;
        assert_eq!(rt; printed(&made, alloc)?.as_slice(), date, "at {i}");
    }
    Ok(())
}

#[test]
fn values_that_stay(rt: HostRuntime) -> Result<(), NoMemory> {
    let alloc = rt.alloc();
    assert!(rt; matches!(sec2gmt(alloc, Value::Absent)?, Value::Absent));
    assert!(rt; matches!(sec2gmtdate(alloc, Value::Absent)?, Value::Absent));
    assert!(rt; matches!(sec2gmt(alloc, Value::Error)?, Value::Error));
    assert!(rt; matches!(sec2gmtdate(alloc, Value::Error)?, Value::Error));
    assert!(rt; matches!(sec2gmt(alloc, Value::Bool(true))?, Value::Bool(true)));
    let mut map = MapValue::new(alloc)?;
    map.put(b"t", from_data(alloc, b"0", InferOpts::plain())?)?;
    match sec2gmt(alloc, Value::Map(map))? {
        Value::Map(map) => assert_eq!(rt; map.len(), 1),
        _ => assert!(rt; false),
    }
    Ok(())
}
