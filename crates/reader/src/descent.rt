// Recursive descent over paths, steps and filters. Each reader takes a tree off the front of the text and drafts its parts.
// Names and draft are parameters: a struct of the two would want of each reader that it keeps the names.
ghost use Rattle.std.specs.Prelude.{◌≡◌, ◌≤◌, length};
ghost use Rattle.std.specs.List.{prefix_len};
ghost use Rattle.model.specs.Names.{is_name_byte};
ghost use Rattle.reader.specs.Parsed.{NameRead, TestRead, StepRead, PathRead, SpineRead, FilterRead, AtomRead, JoinsRead, WordRead, Shut};

use crate::axes::{read_axis, word};
use crate::draft::{Draft, Stuck};
use model::axis::Axis;
use names::lookup::Naming;
use names::{MOST_NAME, is_letter, is_name_byte};
use table::part::Tag;

// The word that joins two filters.
#[derive(Clone, Copy)]
pub enum Word {
    And,
    Or,
}

// How many bytes of a name are at the front.
fn name_bytes(text: &[u8]) -> usize
    ensures within { result ≤ length text.now }
    ensures count { result ≡ prefix_len is_name_byte text.now }
{
    text.iter().take_while(|b| is_name_byte(**b)).count()
}

// At most `room` further bytes of a name.
fn name_rest(text: &[u8], room: usize) -> Result<&[u8], Stuck>
    ensures { NameRead room text.now result }
{
    let used = name_bytes(text);
    if used <= room {
        Ok(&text[used..])
    } else {
        Err(Stuck {
            left: text.len() - room,
        })
    }
}

// "*" or a name.
fn test<'a, N: Naming>(text: &'a [u8], names: &N, draft: &mut Draft) -> Result<&'a [u8], Stuck>
    ensures { TestRead (N.labels names.now) text.now draft.old draft.new result }
{
    match text {
        [b'*', rest @ ..] => {
            draft.add(Tag::Any, 0, 0);
            Ok(rest)
        }
        [b, more @ ..] if is_letter(*b) => {
            let rest = name_rest(more, MOST_NAME - 1)?;
            let label = names.find(&text[..text.len() - rest.len()]);
            draft.name(label, text.len());
            Ok(rest)
        }
        _ => Err(Stuck { left: text.len() }),
    }
}

// The byte that closes a filter.
fn shut(text: &[u8], byte: u8) -> Result<&[u8], Stuck>
    ensures { Shut byte text.now result }
{
    match text {
        [b, rest @ ..] if *b == byte => Ok(rest),
        _ => Err(Stuck { left: text.len() }),
    }
}

// "and " or "or ".
fn join_word(text: &[u8]) -> Result<(Word, &[u8]), Stuck>
    ensures { WordRead text.now result }
{
    match text {
        [b'a', more @ ..] => {
            let rest = word(more, b"nd ")?;
            Ok((Word::And, rest))
        }
        [b'o', more @ ..] => {
            let rest = word(more, b"r ")?;
            Ok((Word::Or, rest))
        }
        _ => Err(Stuck { left: text.len() }),
    }
}

// An axis, a test and at most one filter.
#[cycle(atom_filter_joins_path_step)]
fn step<'a, N: Naming>(
    text: &'a [u8],
    names: &N,
    draft: &mut Draft,
) -> Result<(Axis, &'a [u8]), Stuck>
    ensures { StepRead (N.labels names.now) text.now draft.old draft.new result }
{
    draft.count();
    let (axis, more) = read_axis(text)?;
    let rest = test(more, names, draft)?;
    match rest {
        [b'[', inner @ ..] => {
            let here = draft.root();
            draft.enter(inner.len());
            let after = filter(inner, names, draft)?;
            let end = shut(after, b']')?;
            draft.leave();
            draft.join(Tag::Filtered, here);
            Ok((axis, end))
        }
        _ => Ok((axis, rest)),
    }
}

// A path in a filter: steps joined by "/".
#[cycle(atom_filter_joins_path_step)]
fn path<'a, N: Naming>(text: &'a [u8], names: &N, draft: &mut Draft) -> Result<&'a [u8], Stuck>
    ensures { PathRead (N.labels names.now) text.now draft.old draft.new result }
{
    let (axis, rest) = step(text, names, draft)?;
    match rest {
        [b'/', more @ ..] => {
            let here = draft.root();
            let end = path(more, names, draft)?;
            draft.join(Tag::Then, here);
            draft.over(Tag::Along(axis));
            Ok(end)
        }
        _ => {
            draft.over(Tag::Along(axis));
            Ok(rest)
        }
    }
}

// A path, "(" and a filter and ")", or "not(" and a filter and ")".
#[cycle(atom_filter_joins_path_step)]
fn atom<'a, N: Naming>(text: &'a [u8], names: &N, draft: &mut Draft) -> Result<&'a [u8], Stuck>
    ensures { AtomRead (N.labels names.now) text.now draft.old draft.new result }
{
    match text {
        [b'(', more @ ..] => {
            draft.enter(more.len());
            let rest = filter(more, names, draft)?;
            draft.leave();
            shut(rest, b')')
        }
        [b'n', more @ ..] => {
            let inner = word(more, b"ot(")?;
            draft.count();
            draft.enter(inner.len());
            let rest = filter(inner, names, draft)?;
            let end = shut(rest, b')')?;
            draft.leave();
            draft.over(Tag::Not);
            Ok(end)
        }
        _ => path(text, names, draft),
    }
}

// An atom and what is joined to it.
#[cycle(atom_filter_joins_path_step)]
fn filter<'a, N: Naming>(text: &'a [u8], names: &N, draft: &mut Draft) -> Result<&'a [u8], Stuck>
    ensures { FilterRead (N.labels names.now) text.now draft.old draft.new result }
{
    let rest = atom(text, names, draft)?;
    joins(rest, names, draft, None)
}

// What is joined to the last atom. An `and` is joined at once; the left side of an `or` waits until its right side is complete.
#[cycle(atom_filter_joins_path_step)]
fn joins<'a, N: Naming>(
    text: &'a [u8],
    names: &N,
    draft: &mut Draft,
    waiting: Option<usize>,
) -> Result<&'a [u8], Stuck>
    ensures { JoinsRead (N.labels names.now) waiting text.now draft.old draft.new result }
{
    match text {
        [b' ', more @ ..] => {
            let (word, next) = join_word(more)?;
            match word {
                Word::And => {
                    let left = draft.root();
                    draft.count();
                    let rest = atom(next, names, draft)?;
                    draft.join(Tag::And, left);
                    joins(rest, names, draft, waiting)
                }
                Word::Or => {
                    draft.close(waiting);
                    let left = draft.root();
                    draft.count();
                    let rest = atom(next, names, draft)?;
                    joins(rest, names, draft, Some(left))
                }
            }
        }
        _ => {
            draft.close(waiting);
            Ok(text)
        }
    }
}

// The query's own path: each step is joined with the query before it.
pub fn spine<'a, N: Naming>(text: &'a [u8], names: &N, draft: &mut Draft) -> Result<&'a [u8], Stuck>
    ensures { SpineRead (N.labels names.now) text.now draft.old draft.new result }
{
    let before = draft.root();
    let (axis, rest) = step(text, names, draft)?;
    let here = draft.root();
    draft.add(Tag::Step(axis), here, before);
    match rest {
        [b'/', more @ ..] => spine(more, names, draft),
        _ => Ok(rest),
    }
}
