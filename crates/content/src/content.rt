// Content, its lists and its members. Each level of groups costs one of `depth`, so a read ends.
ghost use Rattle.std.specs.Prelude.{◌≡◌, ◌-◌};
ghost use Rattle.sheet.specs.Sheets.{held};
ghost use Rattle.token_de.specs.Meaning.{on};
ghost use Rattle.content.specs.Levels.{Levels};
ghost use Rattle.content.specs.Bodies.{body as words, entry};
ghost use Rattle.content.specs.Contents.{content as meant, from_group};

use crate::atom::{from_literal, from_punct, text};
use crate::body::alone;
use crate::datum::{Counted, Datum};
use scalar::bool::spelled;
use sheet::input::Input;
use sheet::spot::Spot;
use sheet::token::Delimiter;
use sheet::tree::Tree;
use token_de::fault::{Fault, Wanted};
use token_de::seed::Taken;
use token_de::separators::{comma, equals};

// One content word, of at most `depth` levels. The depth is an argument, so the bound on it is no part of an input.
#[tactic(auto, using(crate::specs::Depths::tree_levels, crate::proofs::Seen::each_tree))]
#[cycle(content_content_group_content_list_content_members)]
pub(crate) fn content(input: &Input, depth: usize) -> Result<Taken<Datum>, Fault>
    requires { Levels depth (held input.now.sheet) input.now.rest.from input.now.rest.to }
    ensures { result ≡ on (meant depth) input.now }
{
    match input.tree() {
        Some(Tree::Ident(name)) => match spelled(name) {
            Some(value) => Ok(Taken::one(Datum::Bool(value))),
            None => text(input),
        },
        Some(Tree::String(_)) => text(input),
        Some(Tree::Punct(punct)) => from_punct(input, punct),
        Some(Tree::Literal(literal)) => from_literal(input, literal),
        Some(Tree::Group(delimiter, body)) => {
            let inside = input.sheet().input(Spot::within(body));
            content_group(body.parent(), delimiter, &inside, depth - 1)
        }
        None => Err(Fault::ended(Wanted::Content, input)),
    }
}

// The word that a group at `at` is, with at most `depth` levels in it.
#[tactic(auto, using(crate::proofs::Loops::one_alone))]
#[cycle(content_content_group_content_list_content_members)]
fn content_group(
    at: usize,
    delimiter: Delimiter,
    body: &Input,
    depth: usize,
) -> Result<Taken<Datum>, Fault>
    requires { Levels depth (held body.now.sheet) body.now.rest.from body.now.rest.to }
    ensures { result ≡ from_group (held body.now.sheet) (meant depth (held body.now.sheet)) at body.now.rest.from (body.now.rest.to - body.now.rest.from) delimiter }
{
    let is_empty = body.rest().first().is_none();
    match delimiter {
        Delimiter::Parenthesis if is_empty => Ok(Taken::one(Datum::Empty)),
        Delimiter::Parenthesis | Delimiter::Bracket => {
            let count = content_list(body, depth)?;
            Ok(Taken::one(Datum::List(Counted { group: at, count })))
        }
        Delimiter::Brace => {
            let count = content_members(body, depth)?;
            Ok(Taken::one(Datum::Map(Counted { group: at, count })))
        }
        Delimiter::Invisible if is_empty => Err(Fault::Empty(at)),
        Delimiter::Invisible => {
            let word = content(body, depth)?;
            alone(word, body)
        }
    }
}

// How many words a list body of content has.
#[cycle(content_content_group_content_list_content_members)]
fn content_list(body: &Input, depth: usize) -> Result<usize, Fault>
    requires { Levels depth (held body.now.sheet) body.now.rest.from body.now.rest.to }
    ensures { result ≡ words (held body.now.sheet) (meant depth (held body.now.sheet)) body.now.rest.from body.now.rest.to }
{
    let mut left = *body;
    let mut count = 0;
    while left.rest().first().is_some() {
        let word = content(&left, depth)?;
        let behind = left.past(word.count);
        left = behind.past(comma(&behind)?);
        count += 1;
    }
    Ok(count)
}

// How many entries a member body of content and content has. A loop shared with lists would take its step as a
// closure that calls back into this cycle, and the clauses of that are longer than the loop.
#[cycle(content_content_group_content_list_content_members)]
fn content_members(body: &Input, depth: usize) -> Result<usize, Fault>
    requires { Levels depth (held body.now.sheet) body.now.rest.from body.now.rest.to }
    ensures { result ≡ words (held body.now.sheet) (entry (held body.now.sheet) (meant depth (held body.now.sheet)) (meant depth (held body.now.sheet))) body.now.rest.from body.now.rest.to }
{
    let mut left = *body;
    let mut count = 0;
    while left.rest().first().is_some() {
        let key = content(&left, depth)?;
        equals(&left, key.count)?;
        let value_on = left.past(key.count).past(1);
        let value = content(&value_on, depth)?;
        let behind = value_on.past(value.count);
        left = behind.past(comma(&behind)?);
        count += 1;
    }
    Ok(count)
}
