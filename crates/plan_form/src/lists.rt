// Lists of numbers and of terms as they are spelled in a plan.
ghost use Rattle.std.specs.Prelude.{◌≡◌, ◌<◌, ◌∷◌, [], length, IfSome, IfNone, IfOk};
ghost use Rattle.plan_form.specs.Spelling.{numbers_text, term_text, terms_text};
ghost use Rattle.plan_form.specs.Parts.{IsNodeList, IsTermList, IsTerm};
ghost use Rattle.plan_form.specs.Values.{Spells, SpellsIn, coefficients, listed, parts};

use crate::numerals::number;
use simple_path::{Recipe, Term};
use tomo_base::NoMemory;

// The most terms of a recipe.
const TERM_LIMIT: usize = 16;

// A text up to where a byte stands first, and the text after it.
fn cut(text: &[u8], byte: u8) -> (&[u8], Option<&[u8]>)
    ensures last { IfNone result.1 (parts byte text.now ≡ result.0.now ∷ []) }
    ensures more { IfSome result.1 (λ rest. parts byte text.now ≡ result.0.now ∷ parts byte rest.now) }
    ensures shorter { IfSome result.1 (λ rest. length rest.now < length text.now) }
{
    match text.iter().position(|b| *b == byte) {
        None => (text, None),
        Some(place) => (&text[..place], Some(&text[place + 1..])),
    }
}

// The coefficient that is spelled so: from -4 to 4 and not 0, without a plus sign.
fn coefficient(text: &[u8]) -> Option<i8>
    ensures { result ≡ listed text.now coefficients }
{
    match text {
        b"1" => Some(1),
        b"2" => Some(2),
        b"3" => Some(3),
        b"4" => Some(4),
        b"-1" => Some(-1),
        b"-2" => Some(-2),
        b"-3" => Some(-3),
        b"-4" => Some(-4),
        _ => None,
    }
}

// The term that is spelled so.
fn term(text: &[u8]) -> Option<Term>
    ensures { Spells IsTerm term_text text.now result }
{
    let (first, rest) = cut(text, b':');
    let coef = coefficient(first)?;
    let path = number(rest?)?;
    Some(Term { coef, path })
}

/// Makes the list that of the nodes that are spelled so, one or more, and answers whether they are.
pub(crate) fn read_nodes(text: &[u8], nodes: &mut Vec<u32>) -> Result<bool, NoMemory>
    ensures { IfOk result (SpellsIn IsNodeList numbers_text text.now nodes.new.items) }
{
    nodes.clear();
    let mut rest = text;
    loop {
        let (first, after) = cut(rest, b' ');
        let Some(node) = number(first) else {
            return Ok(false);
        };
        nodes.push(node)?;
        match after {
            None => return Ok(true),
            Some(after) => rest = after,
        }
    }
}

/// Makes the recipe, which is empty, that of the terms that are spelled so, 1 to 16, and answers whether they are.
pub(crate) fn read_terms(text: &[u8], recipe: &mut Recipe) -> Result<bool, NoMemory>
    requires { recipe.old ≡ [] }
    ensures { IfOk result (SpellsIn IsTermList terms_text text.now recipe.new) }
{
    let mut rest = text;
    loop {
        let (first, after) = cut(rest, b' ');
        let Some(term) = term(first) else {
            return Ok(false);
        };
        if recipe.terms().len() == TERM_LIMIT {
            return Ok(false);
        }
        recipe.push(term)?;
        match after {
            None => return Ok(true),
            Some(after) => rest = after,
        }
    }
}
