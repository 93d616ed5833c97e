ghost use Rattle.std.specs.Prelude.{◌≡◌, ℕ, length, if◌then◌else◌, None, nat_lt};
ghost use Rattle.layout.specs.Rules.{entry};
ghost use Rattle.sheet.specs.Sheets.{held};
ghost use Rattle.sheet.specs.Tokens.{token, bytes_of};
ghost use Rattle.sheet.specs.Trees.{tree_of, if_there, shown, worded, text_of, text_shown, pool_of};

use super::Sheet;
use crate::spot::Body;
use crate::text::{Pool, Text};
use crate::token::{Part, Token, token_of};
use crate::tree::Tree;

// The bytes of a part of a pool, as far as the pool goes.
#[inline(always)]
#[tactic(auto, using(std::proofs::lemmas::List::drop_min))]
fn cut(pool: &[u8], part: Part) -> &[u8]
    ensures { result.now ≡ bytes_of pool.now part }
{
    let rest = &pool[part.start.min(pool.len())..];
    &rest[..part.len.min(rest.len())]
}

impl<'a> Sheet<'a> {
    // The text that is a part of a pool.
    #[inline(always)]
    fn part(&self, pool: Pool, part: Part) -> Text<'a>
        ensures { worded result ≡ record { pool = pool; start = part.start; bytes = bytes_of (pool_of (held self.now) pool) part } }
    {
        Text {
            pool,
            start: part.start,
            bytes: self.bytes(pool, part),
        }
    }

    // What record `at` means, if there is such a record.
    #[inline(always)]
    pub fn token(&self, at: usize) -> Option<Token>
        ensures { result ≡ if_there (held self.now) at (token (held self.now) at) }
    {
        let record = self.records.get(at)?;
        Some(token_of(record))
    }

    // The tree of record `at`, if there is such a record.
    #[inline(always)]
    pub fn tree(&self, at: usize) -> Option<Tree<'a>>
        ensures { shown result ≡ if_there (held self.now) at (tree_of (held self.now) at (token (held self.now) at)) }
    {
        let tree = match self.token(at)? {
            Token::Ident(part) => Tree::Ident(self.bytes(Pool::Names, part)),
            Token::String(part) => Tree::String(self.bytes(Pool::Strings, part)),
            Token::Punct(punct) => Tree::Punct(punct),
            Token::Literal(literal) => Tree::Literal(literal),
            Token::Group(group) => Tree::Group(group.delimiter, Body::new(at, group)),
        };
        Some(tree)
    }

    // The text of record `at`, if that is an identifier or a string literal.
    #[inline(always)]
    pub fn text(&self, at: usize) -> Option<Text<'a>>
        ensures { text_shown result ≡ (if nat_lt at (length (held self.now).records) then text_of (held self.now) (token (held self.now) at) else None) }
    {
        match self.token(at)? {
            Token::Ident(part) => Some(self.part(Pool::Names, part)),
            Token::String(part) => Some(self.part(Pool::Strings, part)),
            _ => None,
        }
    }

    // The bytes of a part of one of its pools, as far as the pool goes.
    #[inline(always)]
    pub fn bytes(&self, pool: Pool, part: Part) -> &'a [u8]
        ensures { result.now ≡ bytes_of (pool_of (held self.now) pool) part }
    {
        match pool {
            Pool::Names => cut(self.names, part),
            Pool::Strings => cut(self.strings, part),
        }
    }

    // Where record `at` stood in the source, if there is such a record.
    pub fn place(&self, at: usize) -> Option<u32>
        ensures { result ≡ if_there (held self.now) at (entry (held self.now).records at).place }
    {
        Some(self.records.get(at)?.place)
    }
}
