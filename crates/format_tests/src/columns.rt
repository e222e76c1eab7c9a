//! Blocks and lines, and what is written of them.
use crate::blocks::used_block;
use crate::fields::record_of;
use mlr_record::Record;
use mlr_spec::NoMemory;
use mlr_value::{Bytes, Value};
use std::alloc::Global;
use text_columns::append_xtab;

/// A way of writing records.
#[derive(Clone, Copy)]
enum Form {
    Block { barred: bool, headerless: bool },
    Xtab,
}

const PPRINT: Form = Form::Block {
    barred: false,
    headerless: false,
};

const BARRED: Form = Form::Block {
    barred: true,
    headerless: false,
};

/// The text of a block of these records, each on a line.
fn block_of(
    alloc: Global,
    barred: bool,
    headerless: bool,
    lines: &[u8],
) -> Result<Bytes, NoMemory> {
    let mut block = used_block(alloc)?;
    for line in lines.split(|b| *b == b'\n') {
        let record = record_of(alloc, line)?;
        if block.is_empty() && record.len() > 0 {
            block.push_keys(&record)?;
        }
        if record.len() > 0 {
            block.push_values(&record)?;
        }
    }
    let mut out = Bytes::new(alloc);
    block.append_to(barred, headerless, &mut out)?;
    Ok(out)
}

/// The text of these records, each on a line.
fn written(alloc: Global, form: Form, lines: &[u8]) -> Result<Bytes, NoMemory> {
    match form {
        Form::Block { barred, headerless } => block_of(alloc, barred, headerless, lines),
        Form::Xtab => {
            let mut out = Bytes::new(alloc);
            append_xtab(&record_of(alloc, lines)?, &mut out)?;
            Ok(out)
        }
    }
}

/// Records with an empty value, and with a text of two code points in four bytes.
const LINES: &[u8] = b"a=1|b=|c=xyz\na=200|b=\xc3\xa9\xc3\xa9|c=";

/// A form, lines, and what is written of them.
const CASES: [(Form, &[u8], &[u8]); 9] = [
    (
        PPRINT,
        LINES,
        b"a   b  c\n1   -  xyz\n200 \xc3\xa9\xc3\xa9 -\n",
    ),
    (
        BARRED,
        b"a=1|b=x|c=xyz\na=200|b=\xc3\xa9\xc3\xa9|c=y",
        b"+-----+----+-----+\n| a   | b  | c   |\n+-----+----+-----+\n\
          | 1   | x  | xyz |\n| 200 | \xc3\xa9\xc3\xa9 | y   |\n+-----+----+-----+\n",
    ),
    (
        Form::Block {
            barred: false,
            headerless: true,
        },
        LINES,
        b"1   -  xyz\n200 \xc3\xa9\xc3\xa9 -\n",
    ),
    (
        Form::Block {
            barred: true,
            headerless: true,
        },
        b"a=1",
        b"+---+\n| 1 |\n+---+\n",
    ),
    (PPRINT, b"a=\xff\xfe|b=2", b"a  b\n\xff\xfe 2\n"),
    (
        PPRINT,
        b"a=longer_than_two_and_thirty_bytes_of_spaces|b=2",
        b"a                                          b\nlonger_than_two_and_thirty_bytes_of_spaces 2\n",
    ),
    (PPRINT, b"", b""),
    (
        Form::Xtab,
        b"x=3|\xc3\xa9yz=|wxyz=5",
        b"x    3\n\xc3\xa9yz  \nwxyz 5\n",
    ),
    (Form::Xtab, b"", b""),
];

/// A byte, so many times.
fn repeated(alloc: Global, byte: u8, times: usize) -> Result<Bytes, NoMemory> {
    let mut text = Bytes::new(alloc);
    for _ in 0..times {
        text.push(byte)?;
    }
    Ok(text)
}

/// The lengths of a cell and how many rows have it: a cell below and above 255 bytes, rows in more than one
/// chunk, and a row that is longer than a chunk.
const SIZES: [(usize, usize); 5] = [(254, 2), (255, 2), (256, 2), (300, 1000), (100_000, 3)];

/// Whether a block has a cell of this length in so many rows.
fn is_long_written(alloc: Global, length: usize, count: usize) -> Result<bool, NoMemory> {
    let mut record = Record::new(alloc)?;
    let cell = repeated(alloc, b'x', length)?;
    record.put(b"a", Value::Str(cell.copy()?))?;
    record.put(b"b", Value::Empty)?;
    let mut block = used_block(alloc)?;
    block.push_keys(&record)?;
    let mut want = Bytes::new(alloc);
    want.append(b"a")?;
    want.append(repeated(alloc, b' ', length)?.as_slice())?;
    want.append(b"b\n")?;
    for _ in 0..count {
        block.push_values(&record)?;
        want.append(cell.as_slice())?;
        want.append(b" -\n")?;
    }
    let mut out = Bytes::new(alloc);
    block.append_to(false, false, &mut out)?;
    Ok(out == want)
}

/// The first case that is written otherwise.
fn first_wrong_case(alloc: Global) -> Result<Option<usize>, NoMemory> {
    for (i, case) in CASES.iter().enumerate() {
        let (form, lines, text) = *case;
        if written(alloc, form, lines)?.as_slice() != text {
            return Ok(Some(i));
        }
    }
    Ok(None)
}

/// The length of the first cell that is written otherwise.
fn first_wrong_cell(alloc: Global) -> Result<Option<usize>, NoMemory> {
    for size in SIZES {
        let (length, count) = size;
        if !is_long_written(alloc, length, count)? {
            return Ok(Some(length));
        }
    }
    Ok(None)
}

#[test]
fn cases_and_long_cells_are_written(rt: HostRuntime) -> Result<(), NoMemory> {
    let alloc = rt.alloc();
    assert_eq!(rt; first_wrong_case(alloc)?, None);
    assert_eq!(rt; first_wrong_cell(alloc)?, None);
    Ok(())
}
