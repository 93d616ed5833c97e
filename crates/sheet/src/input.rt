// What a seed reads from: the rest of a run, on the sheet that has it. These are steps of every read, so they are marked
// for inlining: a read whose every step copies an `Input` takes several times as long.
ghost use Rattle.std.specs.Prelude.{◌≡◌, true, false, MatchOption};
ghost use Rattle.sheet.specs.Sheets.{held};
ghost use Rattle.sheet.specs.Spots.{is_run, rest};
ghost use Rattle.sheet.specs.Trees.{shown};
ghost use Rattle.sheet.specs.Inputs.{first, next_token, next_tree, behind, front};

use crate::sheet::Sheet;
use crate::spot::{Body, Rest, Spot};
use crate::token::Token;
use crate::tree::Tree;

// What is left to read, and the sheet that has it as a run.
#[derive(Clone, Copy)]
pub struct Input<'a> {
    sheet: Sheet<'a>,
    rest: Rest,
    ghost run: { is_run (held sheet) rest.from rest.to ≡ true },
}

impl Rest {
    // The next record, unless nothing is left.
    #[inline(always)]
    pub fn first(&self) -> Option<usize>
        ensures { result ≡ first self.now }
    {
        (self.from < self.to).then_some(self.from)
    }

    // Past so many trees, or past all of them where it has fewer.
    #[inline(always)]
    pub fn past(self, count: usize) -> Rest
        ensures { result ≡ behind self count }
    {
        let passed = count.min(self.to.saturating_sub(self.from));
        if passed == 0 {
            return self;
        }
        let from = self.from + passed;
        Rest {
            from,
            to: self.to,
            last: Some(from - 1),
        }
    }
}

impl<'a> Sheet<'a> {
    // What it has of a spot, to read from.
    #[inline(always)]
    pub fn input(&self, spot: Spot) -> Input<'a>
        ensures sheet { result.sheet ≡ self.now }
        ensures rest { result.rest ≡ rest (held self.now) spot }
    {
        Input {
            sheet: *self,
            rest: self.rest(spot),
        }
    }
}

impl<'a> Sheet<'a> {
    // These records to read from, if it has them as a run.
    pub fn run(&self, rest: Rest) -> Option<Input<'a>>
        ensures { MatchOption result (is_run (held self.now) rest.from rest.to ≡ false) (λ x. (x.sheet ≡ self.now) × (x.rest ≡ rest)) }
    {
        let Rest { from, to, .. } = rest;
        if !self.has_run(Body {
            parent: 0,
            from,
            to,
        }) {
            return None;
        }
        Some(Input { sheet: *self, rest })
    }
}

impl<'a> Input<'a> {
    // Its sheet.
    #[inline(always)]
    pub fn sheet(&self) -> Sheet<'a>
        ensures { result ≡ self.now.sheet }
    {
        self.sheet
    }

    // The rest of the run, in plain numbers.
    #[inline(always)]
    pub fn rest(&self) -> Rest
        ensures { result ≡ self.now.rest }
    {
        self.rest
    }

    // The next token, unless nothing is left.
    #[inline(always)]
    pub fn token(&self) -> Option<Token>
        ensures { result ≡ next_token (held self.now.sheet) self.now.rest }
    {
        let Input { sheet, rest, .. } = self;
        sheet.token(rest.first()?)
    }

    // The next tree, unless nothing is left.
    #[inline(always)]
    pub fn tree(&self) -> Option<Tree<'a>>
        ensures { shown result ≡ next_tree (held self.now.sheet) self.now.rest }
    {
        let Input { sheet, rest, .. } = self;
        sheet.tree(rest.first()?)
    }

    // Past so many trees, or past all of them where it has fewer.
    #[inline(always)]
    pub fn past(&self, count: usize) -> Input<'a>
        ensures sheet { result.sheet ≡ self.now.sheet }
        ensures rest { result.rest ≡ behind self.now.rest count }
    {
        Input {
            sheet: self.sheet,
            rest: self.rest.past(count),
        }
    }

    // Its first so many trees, or all of them where it has fewer, as a run of their own.
    #[inline(always)]
    #[tactic(auto, using(crate::proofs::Inputs::rest_order))]
    pub fn take(&self, count: usize) -> Input<'a>
        ensures sheet { result.sheet ≡ self.now.sheet }
        ensures rest { result.rest ≡ front self.now.rest count }
    {
        let Rest { from, to, last } = self.rest;
        Input {
            sheet: self.sheet,
            rest: Rest {
                from,
                to: from + count.min(to - from),
                last,
            },
        }
    }

    // The same, with this as the last token passed.
    #[inline(always)]
    pub fn with_last(&self, last: Option<usize>) -> Input<'a>
        ensures sheet { result.sheet ≡ self.now.sheet }
        ensures rest { result.rest ≡ record { from = self.now.rest.from; to = self.now.rest.to; last = last } }
    {
        let Rest { from, to, .. } = self.rest;
        Input {
            sheet: self.sheet,
            rest: Rest { from, to, last },
        }
    }
}
