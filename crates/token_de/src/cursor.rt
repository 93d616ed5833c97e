ghost use Rattle.std.specs.Prelude.{◌≡◌};
ghost use Rattle.sheet.specs.Sheets.{held};
ghost use Rattle.sheet.specs.Spots.{at_root, at_body, rest};
ghost use Rattle.token_de.specs.Cursors.{peeked, peek_shown, passed_one, text_shown, text_read, text_after};

use crate::fault::{Fault, Wanted};
use sheet::sheet::Sheet;
use sheet::spot::{Body, Spot};
use sheet::text::Text;
use sheet::tree::Tree;

// A cursor over the trees of one run. It holds no sheet; each call is lent one, and where that sheet does not
// have the run, nothing is left and nothing was passed.
#[derive(Clone, Copy, PartialEq, Eq)]
pub struct TokenDe {
    pub(crate) at: Spot,
}

impl TokenDe {
    // Before record 0.
    pub fn new() -> TokenDe
        ensures { result.at ≡ at_root }
    {
        TokenDe { at: Spot::root() }
    }

    // At the start of a body.
    pub fn within(body: Body) -> TokenDe
        ensures { result.at ≡ at_body body }
    {
        TokenDe {
            at: Spot::within(body),
        }
    }

    // Where a spot is.
    pub fn standing(at: Spot) -> TokenDe
        ensures { result.at ≡ at }
    {
        TokenDe { at }
    }

    // Its spot.
    pub fn spot(&self) -> Spot
        ensures { result ≡ self.now.at }
    {
        self.at
    }

    // The last token passed, if any.
    pub fn last(&self, sheet: &Sheet) -> Option<usize>
        ensures { result ≡ (rest (held sheet.now) self.now.at).last }
    {
        sheet.rest(self.at).last
    }

    // The next tree and its record; the cursor stays.
    #[inline(always)]
    #[tactic(auto, unfolding(crate::specs::Cursors::peeked))]
    pub fn peek<'a>(&self, sheet: &Sheet<'a>) -> Option<(usize, Tree<'a>)>
        ensures { peek_shown result ≡ peeked (held sheet.now) self.now.at }
    {
        let rest = sheet.rest(self.at);
        let tree = sheet.tree(rest.first()?)?;
        Some((rest.from, tree))
    }

    // The next tree and its record, which are passed.
    #[tactic(auto, using(crate::proofs::Cursors::peeked_few), unfolding(crate::specs::Cursors::peeked, crate::specs::Cursors::passed_one))]
    pub fn next<'a>(&mut self, sheet: &Sheet<'a>) -> Option<(usize, Tree<'a>)>
        ensures shows { peek_shown result ≡ peeked (held sheet.now) self.old.at }
        ensures passes { self.new.at ≡ passed_one (held sheet.now) self.old.at }
    {
        let rest = sheet.rest(self.at);
        let passed = sheet.tree(rest.first()?)?;
        self.at = self.at.past(rest.from + 1);
        Some((rest.from, passed))
    }

    // The text of the next token, an identifier or a string literal, which is passed.
    #[tactic(auto, using(sheet::proofs::Inputs::rest_fits), unfolding(crate::specs::Cursors::passed_one, crate::specs::Cursors::text_read, crate::specs::Cursors::text_after))]
    pub fn text<'a>(&mut self, sheet: &Sheet<'a>) -> Result<Text<'a>, Fault>
        ensures answer { text_shown result ≡ text_read (held sheet.now) self.old.at }
        ensures passes { self.new.at ≡ text_after (held sheet.now) self.old.at }
    {
        let rest = sheet.rest(self.at);
        let ended = Fault::Ended(Wanted::String, rest.last.unwrap_or(0));
        let at = rest.first().ok_or(ended)?;
        let text = sheet.text(at).ok_or(Fault::Wrong(Wanted::String, at))?;
        self.at = self.at.past(at + 1);
        Ok(text)
    }
}
