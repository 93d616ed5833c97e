ghost use Rattle.std.specs.Prelude.{◌≡◌};
ghost use Rattle.layout.specs.Rules.{sized};

// How large a sheet is: its records, and the bytes of its names and of its strings.
#[derive(Clone, Copy, PartialEq, Eq, Debug)]
pub struct Sizes {
    pub records: usize,
    pub names: usize,
    pub strings: usize,
}

// What a check measures records against: the bytes of names and of strings, and the deepest depth.
#[derive(Clone, Copy, PartialEq, Eq, Debug)]
pub struct Bounds {
    pub names: usize,
    pub strings: usize,
    pub depth: u32,
}

// The largest sheet that is taken. `Sizes` are those of one file, and `Bounds` what one of its records is measured against.
#[derive(Clone, Copy)]
pub struct Limits {
    pub records: usize,
    pub names: usize,
    pub strings: usize,
    pub depth: u32,
}

// The limits of every sheet: records, bytes of names, bytes of strings, and depth.
pub const LIMITS: Limits = Limits {
    records: 1024,
    names: 8192,
    strings: 8192,
    depth: 32,
};

impl Limits {
    // Whether a sheet of these sizes is within the limits.
    pub fn allow(&self, sizes: Sizes) -> bool
        ensures { result ≡ sized self.now sizes.records sizes.names sizes.strings }
    {
        1 <= sizes.records
            && sizes.records <= self.records
            && sizes.names <= self.names
            && sizes.strings <= self.strings
    }

    // What the records of a sheet of these sizes are measured against.
    pub fn bounds(&self, sizes: Sizes) -> Bounds
        ensures { result ≡ record { names = sizes.names; strings = sizes.strings; depth = self.now.depth } }
    {
        Bounds {
            names: sizes.names,
            strings: sizes.strings,
            depth: self.depth,
        }
    }
}
