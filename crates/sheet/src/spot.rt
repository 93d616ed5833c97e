ghost use Rattle.std.specs.Prelude.{◌≡◌, ◌+◌, ◌^◌, ◌<◌};
ghost use Rattle.sheet.specs.Spots.{at_root, at_body, at_rest, past, body_of};

use crate::token::Group;

// The body of a group: the group's record, and the records from `from` up to `to`.
#[derive(Clone, Copy, PartialEq, Eq, Debug)]
pub struct Body {
    pub(crate) parent: usize,
    pub(crate) from: usize,
    pub(crate) to: usize,
}

// Where a cursor stands, in plain numbers and with no sheet: its run is the records from `first` up to `end`,
// which lay in the body of `group` in the sheet that it was begun on.
#[derive(Clone, Copy, PartialEq, Eq, Debug)]
pub struct Spot {
    pub(crate) group: usize,
    pub(crate) first: usize,
    pub(crate) place: usize,
    pub(crate) end: usize,
}

// What a sheet has of a spot: the rest of its run, and the last token passed.
#[derive(Clone, Copy, PartialEq, Eq, Debug)]
pub struct Rest {
    pub from: usize,
    pub to: usize,
    pub last: Option<usize>,
}

impl Body {
    #[inline(always)]
    pub(crate) fn new(parent: usize, token: Group) -> Body
        requires { token.first + token.count < 2 ^ 64 }
        ensures { result ≡ body_of parent token }
    {
        Body {
            parent,
            from: token.first,
            to: token.first + token.count,
        }
    }

    // The record of its group.
    pub fn parent(&self) -> usize
        ensures { result ≡ self.now.parent }
    {
        self.parent
    }

    // Its first record.
    pub fn from(&self) -> usize
        ensures { result ≡ self.now.from }
    {
        self.from
    }

    // The record after its last.
    pub fn to(&self) -> usize
        ensures { result ≡ self.now.to }
    {
        self.to
    }
}

impl Spot {
    // Before record 0.
    pub fn root() -> Spot
        ensures { result ≡ at_root }
    {
        Spot {
            group: 0,
            first: 0,
            place: 0,
            end: 1,
        }
    }

    // At the start of a body.
    #[inline(always)]
    pub fn within(body: Body) -> Spot
        ensures { result ≡ at_body body }
    {
        Spot {
            group: body.parent,
            first: body.from,
            place: body.from,
            end: body.to,
        }
    }

    // Before the rest of a run, as a run of its own: nothing is passed.
    pub fn over(rest: Rest) -> Spot
        ensures { result ≡ at_rest rest.from rest.to }
    {
        Spot {
            group: 0,
            first: rest.from,
            place: rest.from,
            end: rest.to,
        }
    }

    // The record before which it stands.
    pub fn place(&self) -> usize
        ensures { result ≡ self.now.place }
    {
        self.place
    }

    // At another place of the same run.
    #[inline(always)]
    pub fn past(self, place: usize) -> Spot
        ensures { result ≡ past self place }
    {
        Spot {
            group: self.group,
            first: self.first,
            place,
            end: self.end,
        }
    }
}
