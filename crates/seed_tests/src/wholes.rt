// Whole files, read as one value.
use content::any::AnyContent;
use content::datum::{Counted, Datum};
use layout::fault::LoadFault;
use layout::record::Record;
use scalar::bool::Bool;
use std::test::Fail;
use token_de::fault::{Fault, Wanted};
use whole::error::FileError;
use whole::read::from_file;

// One record, an empty brace, and no text.
fn empty_brace() -> [u8; 44] {
    let mut file = [0; 44];
    file[0] = 1;
    file[12] = 3;
    file[13] = 1;
    file[16] = 1;
    file
}

#[test]
fn a_file_is_read_as_one_value_or_refused_by_load_or_read(rt: HostRuntime) -> Result<(), Fail> {
    let file = empty_brace();
    let mut table: [Record; 2] = [Record::default(); 2];
    let nothing = Datum::Map(Counted { group: 0, count: 0 });
    assert_eq!(rt; from_file(&file, &mut table, &AnyContent), Ok(nothing));
    assert_eq!(rt; table[0].kind, 3);
    assert_eq!(rt; table[1].kind, 0);
    let no_bool = FileError::Read(Fault::Wrong(Wanted::Bool, 0));
    assert_eq!(rt; from_file(&file, &mut table, &Bool), Err(no_bool));
    let short = FileError::Load(LoadFault::Short);
    assert_eq!(rt; from_file(b"no sheet", &mut table, &AnyContent), Err(short));
    Ok(())
}
