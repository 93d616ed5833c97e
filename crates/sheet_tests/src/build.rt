// Makes records and files for the tests, and loads them.
// The other test crate has makers like these: a crate for both would need contracts for test data.
use layout::fault::LoadFault;
use layout::record::Record;
use load::load::load;
use std::alloc::{AllocError, Global};

pub fn ident(a: u32, b: u32) -> Record {
    Record {
        a,
        b,
        ..Record::default()
    }
}

pub fn punct(code: u8) -> Record {
    Record {
        kind: 1,
        sub: code,
        ..Record::default()
    }
}

pub fn literal(sub: u8) -> Record {
    Record {
        kind: 2,
        sub,
        ..Record::default()
    }
}

pub fn string(a: u32, b: u32) -> Record {
    Record { a, b, ..literal(0) }
}

pub fn char_literal(value: u64) -> Record {
    Record {
        value,
        ..literal(4)
    }
}

pub fn integer(mark: u16, value: u64, bits: u64) -> Record {
    Record {
        mark,
        value,
        bits,
        ..literal(5)
    }
}

pub fn float(bits: u64) -> Record {
    Record { bits, ..literal(6) }
}

pub fn group(sub: u8, a: u32, b: u32) -> Record {
    Record {
        kind: 3,
        sub,
        a,
        b,
        ..Record::default()
    }
}

pub fn brace(a: u32, b: u32) -> Record {
    group(1, a, b)
}

// A length as a number of a head; none of the tests comes near the greatest.
fn number(len: usize) -> u32 {
    u32::try_from(len).unwrap_or(u32::MAX)
}

// A file that begins with these three numbers.
pub fn head(heap: Global, count: u32, names: u32, strings: u32) -> Result<Vec<u8>, AllocError> {
    let mut file = Vec::new(heap);
    file.extend_from_slice(&count.to_le_bytes())?;
    file.extend_from_slice(&names.to_le_bytes())?;
    file.extend_from_slice(&strings.to_le_bytes())?;
    Ok(file)
}

fn put_record(file: &mut Vec<u8>, record: &Record) -> Result<(), AllocError> {
    file.push(record.kind)?;
    file.push(record.sub)?;
    file.extend_from_slice(&record.mark.to_le_bytes())?;
    file.extend_from_slice(&record.a.to_le_bytes())?;
    file.extend_from_slice(&record.b.to_le_bytes())?;
    file.extend_from_slice(&record.place.to_le_bytes())?;
    file.extend_from_slice(&record.value.to_le_bytes())?;
    file.extend_from_slice(&record.bits.to_le_bytes())
}

// The file of these records and pools, whether they keep the rules or not.
pub fn file(
    heap: Global,
    records: &[Record],
    names: &[u8],
    strings: &[u8],
) -> Result<Vec<u8>, AllocError> {
    let mut bytes = head(
        heap,
        number(records.len()),
        number(names.len()),
        number(strings.len()),
    )?;
    for record in records {
        put_record(&mut bytes, record)?;
    }
    bytes.extend_from_slice(names)?;
    bytes.extend_from_slice(strings)?;
    Ok(bytes)
}

// Why a load of this file is refused, if it is, with a table of so many places.
pub fn refusal_with(
    heap: Global,
    bytes: &[u8],
    places: usize,
) -> Result<Option<LoadFault>, AllocError> {
    let mut table = vec![in heap; Record::default(); places]?;
    Ok(load(bytes, table.as_mut_slice()).err())
}

// The same with a table that is large enough for every file.
pub fn refusal(heap: Global, bytes: &[u8]) -> Result<Option<LoadFault>, AllocError> {
    refusal_with(heap, bytes, 1024)
}

// Why a file of these records is refused, with pools of four bytes.
pub fn refusal_of(heap: Global, records: &[Record]) -> Result<Option<LoadFault>, AllocError> {
    let bytes = file(heap, records, b"abcd", b"efgh")?;
    refusal(heap, bytes.as_slice())
}

// Whether a brace with this record as its body is refused.
pub fn refusal_of_one(heap: Global, record: Record) -> Result<Option<LoadFault>, AllocError> {
    refusal_of(heap, &[brace(1, 1), record])
}

// A brace with identifiers as its body, so many records in all.
pub fn flat(heap: Global, count: usize) -> Result<Vec<Record>, AllocError> {
    let idents = count.saturating_sub(1);
    let mut records = vec![in heap; brace(1, number(idents))]?;
    records.resize(1 + idents, Record::default())?;
    Ok(records)
}

// Braces, each the body of the one before it: record i has depth i, for each i below `depth`.
pub fn nest(heap: Global, depth: u32) -> Result<Vec<Record>, AllocError> {
    (1..=depth).map(|first| brace(first, 1)).collect(heap)
}
