// Reading an axis off the front of a text.
ghost use Rattle.std.specs.Prelude.{◌≡◌, ℕ, ◌≤◌, ◌==◌, List, [], ◌++◌, length, zip, codes};
ghost use Rattle.std.specs.List.{prefix_len};
ghost use Rattle.model.specs.Grammar.{axis_text};
ghost use Rattle.grammar.specs.Machine.{Frame, State, axis, lits, after_p, test};
ghost use Rattle.reader.specs.Spells.{Spells, Forks, Names};

use crate::draft::Stuck;
use model::axis::Axis;

// How many bytes at the front are those of `w`.
fn agreeing(text: &[u8], w: &[u8]) -> usize
    ensures within { result ≤ length text.now }
    ensures count { result ≡ prefix_len (λ x. x.0 == x.1) (zip text.now w.now) }
{
    text.iter().zip(w).take_while(|(b, c)| *b == *c).count()
}

// The bytes of `w`.
pub fn word<'a>(text: &'a [u8], w: &[u8]) -> Result<&'a [u8], Stuck>
    ensures { Spells w.now text.now result }
{
    let same = agreeing(text, w);
    if same == w.len() {
        Ok(&text[same..])
    } else {
        Err(Stuck {
            left: text.len() - same,
        })
    }
}

// The rest of an axis that is settled.
fn spelt<'a>(text: &'a [u8], w: &[u8], a: Axis) -> Result<(Axis, &'a [u8]), Stuck>
    ensures { (p : List ℕ) → axis_text a ≡ p ++ w.now → Names (λ fs. lits w.now (test fs)) p text.now result }
{
    let rest = word(text, w)?;
    Ok((a, rest))
}

// The bytes of `w`, and then "::", or "-" and the bytes of `end`.
fn either<'a>(
    text: &'a [u8],
    w: &[u8],
    plain: Axis,
    end: &[u8],
    long: Axis,
) -> Result<(Axis, &'a [u8]), Stuck>
    ensures { (p : List ℕ) (s : List Frame → State) → Forks p w.now plain end.now long s → Names (λ fs. lits w.now (s fs)) p text.now result }
{
    let rest = word(text, w)?;
    match rest {
        [b':', more @ ..] => spelt(more, b":", plain),
        [b'-', more @ ..] => spelt(more, end, long),
        _ => Err(Stuck { left: rest.len() }),
    }
}

// What follows the "p" of an axis.
fn after_p(text: &[u8]) -> Result<(Axis, &[u8]), Stuck>
    ensures { Names after_p (codes "p") text.now result }
{
    match text {
        [b'a', more @ ..] => spelt(more, b"rent::", Axis::Parent),
        [b'r', more @ ..] => either(
            more,
            b"eceding",
            Axis::Preceding,
            b"sibling::",
            Axis::PrecedingSibling,
        ),
        _ => Err(Stuck { left: text.len() }),
    }
}

// An axis and "::".
pub fn read_axis(text: &[u8]) -> Result<(Axis, &[u8]), Stuck>
    ensures { Names axis [] text.now result }
{
    match text {
        [b's', more @ ..] => spelt(more, b"elf::", Axis::Itself),
        [b'c', more @ ..] => spelt(more, b"hild::", Axis::Child),
        [b'p', more @ ..] => after_p(more),
        [b'd', more @ ..] => either(
            more,
            b"escendant",
            Axis::Descendant,
            b"or-self::",
            Axis::DescendantOrSelf,
        ),
        [b'a', more @ ..] => either(
            more,
            b"ncestor",
            Axis::Ancestor,
            b"or-self::",
            Axis::AncestorOrSelf,
        ),
        [b'f', more @ ..] => either(
            more,
            b"ollowing",
            Axis::Following,
            b"sibling::",
            Axis::FollowingSibling,
        ),
        _ => Err(Stuck { left: text.len() }),
    }
}
