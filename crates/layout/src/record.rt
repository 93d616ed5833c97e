// One token of a sheet, in the eight fields of its 32 bytes. What a field means depends on the kind; a field
// that its kind does not use may hold anything.
#[derive(Clone, Copy, PartialEq, Eq, Debug, Default)]
pub struct Record {
    pub kind: u8,
    pub sub: u8,
    pub mark: u16,
    pub a: u32,
    pub b: u32,
    pub place: u32,
    pub value: u64,
    pub bits: u64,
}
