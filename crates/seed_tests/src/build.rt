// Makes the records of small sheets.
// The other test crate has makers like these: a crate for both would need contracts for test data.
use layout::record::Record;

pub const NAMES: &[u8] = b"truefalser#trueTrue";

pub const STRINGS: &[u8] = b"true text";

// The sign of an f64, and the magnitude of the least i64.
pub const SIGN: u64 = 0x8000_0000_0000_0000;

pub fn ident(a: u32, b: u32) -> Record {
    Record {
        a,
        b,
        ..Record::default()
    }
}

pub fn punct(code: u8) -> Record {
    Record {
        kind: 1,
        sub: code,
        ..Record::default()
    }
}

pub fn literal(sub: u8) -> Record {
    Record {
        kind: 2,
        sub,
        ..Record::default()
    }
}

pub fn string(a: u32, b: u32) -> Record {
    Record { a, b, ..literal(0) }
}

pub fn char_literal(value: u64) -> Record {
    Record {
        value,
        ..literal(4)
    }
}

// An integer of this magnitude; its bits are not those of the nearest f64, so a test sees which of the two is read.
pub fn integer(value: u64) -> Record {
    Record {
        value,
        bits: 77,
        ..literal(5)
    }
}

// An integer over 64 bits; its value is not looked at.
pub fn great_integer(bits: u64) -> Record {
    Record {
        mark: 1,
        value: 2,
        bits,
        ..literal(5)
    }
}

pub fn float(bits: u64) -> Record {
    Record { bits, ..literal(6) }
}

pub fn group(sub: u8, a: u32, b: u32) -> Record {
    Record {
        kind: 3,
        sub,
        a,
        b,
        ..Record::default()
    }
}

// A brace round two tokens.
pub fn two(first: Record, second: Record) -> [Record; 3] {
    [group(1, 1, 2), first, second]
}

// A brace round a token and a comma.
pub fn one(token: Record) -> [Record; 3] {
    two(token, punct(b','))
}

// A brace round a `-` and a token.
pub fn minus(token: Record) -> [Record; 3] {
    two(punct(b'-'), token)
}

// A brace round one token, which ends its run.
pub fn alone(token: Record) -> [Record; 2] {
    [group(1, 1, 1), token]
}
