// The refusals as numbers and in words.
use layout::fault::LoadFault;
use std::test::Fail;
use token_de::fault::{Fault, Wanted};

#[test]
fn load_faults_have_numbers_and_words(rt: HostRuntime) -> Result<(), Fail> {
    let heap = rt.alloc();
    let cases = [
        (
            LoadFault::Short,
            1,
            0,
            "the file has under 12 bytes, too few for its head",
        ),
        (
            LoadFault::OutOfRange,
            2,
            0,
            "the head gives a size out of range: records 1 to 1024, names and strings up to 8192 bytes each",
        ),
        (
            LoadFault::WrongLength,
            3,
            0,
            "the file is not as long as its head says",
        ),
        (
            LoadFault::OffLine(41),
            4,
            41,
            "the record has an unknown kind, or a field that its kind does not allow",
        ),
        (
            LoadFault::Misplaced(53),
            5,
            53,
            "the record lies in no body, or its own body is out of place",
        ),
        (
            LoadFault::TooDeep(1023),
            6,
            1023,
            "the record is nested deeper than 32 levels",
        ),
        (
            LoadFault::SmallTable,
            7,
            0,
            "the record table has fewer places than the file has records",
        ),
    ];
    for (fault, number, record, words) in cases {
        assert_eq!(rt; fault.number(), number);
        assert_eq!(rt; fault.record(), record);
        let text = fault.to_string(heap)?;
        assert_eq!(rt; text.as_str(), words);
    }
    Ok(())
}

#[test]
fn wanted_tokens_have_numbers_and_words(rt: HostRuntime) -> Result<(), Fail> {
    let heap = rt.alloc();
    let cases = [
        (Wanted::Bool, 1, "true or false"),
        (Wanted::Signed, 2, "a signed integer in range"),
        (Wanted::Unsigned, 3, "an unsigned integer in range"),
        (Wanted::Float, 4, "a number"),
        (Wanted::Char, 5, "a character"),
        (Wanted::String, 6, "a string"),
        (Wanted::Identifier, 7, "an identifier"),
        (Wanted::Unit, 8, "an empty pair of parentheses"),
    ];
    for (wanted, number, words) in cases {
        assert_eq!(rt; wanted.number(), number);
        assert_eq!(rt; Fault::Wrong(wanted, 2).detail(), number);
        assert_eq!(rt; Fault::Ended(wanted, 2).detail(), number);
        let text = wanted.to_string(heap)?;
        assert_eq!(rt; text.as_str(), words);
    }
    Ok(())
}

#[test]
fn read_faults_have_numbers_and_words(rt: HostRuntime) -> Result<(), Fail> {
    let heap = rt.alloc();
    let wrong = Fault::Wrong(Wanted::String, 31);
    assert_eq!(rt; wrong.number(), 10);
    assert_eq!(rt; wrong.record(), 31);
    let text = wrong.to_string(heap)?;
    assert_eq!(rt;
        text.as_str(),
        "expected a string, but found another token at record 31"
    );
    let ended = Fault::Ended(Wanted::Bool, 7);
    assert_eq!(rt; ended.number(), 11);
    assert_eq!(rt; ended.record(), 7);
    let text = ended.to_string(heap)?;
    assert_eq!(rt;
        text.as_str(),
        "expected true or false after record 7, but nothing is left"
    );
    Ok(())
}
