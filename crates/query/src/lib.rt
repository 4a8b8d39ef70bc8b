// Query texts: one is read into a table of parts, or refused by a fault that names what is wrong.
#![tactic(auto)]

ghost use Rattle.std.specs.Prelude.{◌≡◌, ℕ, ◌≤◌, List, length, IfOk, Result};
ghost use Rattle.model.specs.Limits.{most_parts};
ghost use Rattle.names.specs.Held.{fault_of, labels_of};
ghost use Rattle.table.specs.declared.part.Part.{Part};
ghost use Rattle.query.specs.declared.QueryFault.{QueryFault};
ghost use Rattle.query.specs.declared.QueryFault.TheVariants.{BadSheet};
ghost use Rattle.query.specs.declared.QuerySize.{QuerySize};
ghost use Rattle.query.specs.Answers.{Answered, steps_of};
ghost use Rattle.query.specs.Compiled.{CompiledAs, CompiledWith, ReadsAsWritten};
ghost use Rattle.query.specs.Limits.{Drafted, Limited, Copied};
ghost use Rattle.query.specs.Refusals.{query_refusal, query_sentence};
ghost use Rattle.query.specs.Small.{KeptPast, SmallParts, SmallWhereRanged};
ghost use Rattle.query.specs.Theorems.{AcceptedAsWritten, FittingIsAccepted, OneFault, TablesPartByPart};

use model::fault::{Described, Fault, Layer, Refusal};
use model::limits::{MOST_LENGTH, MOST_TEXT, places};
use names::NamesFault;
use names::lookup::{Lookup, Naming};
use names::sheet::Sheet;
use reader::descent::spine;
use reader::draft::{Draft, start};
use table::part::{Part, Tag};

// The length of an accepted query, and the places that it takes in the table.
#[derive(Clone, Copy, PartialEq, Eq, Debug)]
pub struct QuerySize {
    pub steps: usize,
    pub places: usize,
}

// Why a query text is refused.
#[derive(Clone, Copy, PartialEq, Eq, Debug)]
pub enum QueryFault {
    // The names sheet is refused, so no text is read with it.
    BadSheet(NamesFault),
    // The text is empty or has too many bytes.
    BadSize,
    // From this place on, nothing makes the text a query.
    Broken(usize),
    // Too much is open from this place on.
    TooDeep(usize),
    // The query is too long: it has too many steps, `and`, `or` and `not`.
    TooLong,
    // The name that begins here has no label.
    UnknownName(usize),
    // The table has too few places.
    ShortTable,
}

impl Fault for QueryFault {
    ghost refusal = { query_refusal };

    fn refusal(&self) -> Refusal {
        let (number, place) = match self {
            QueryFault::BadSheet(fault) => return fault.refusal(),
            QueryFault::BadSize => (10, 0),
            QueryFault::Broken(p) => (11, *p),
            QueryFault::TooDeep(p) => (12, *p),
            QueryFault::TooLong => (13, 0),
            QueryFault::UnknownName(p) => (14, *p),
            QueryFault::ShortTable => (15, 0),
        };
        Refusal {
            number,
            layer: Layer::Query,
            place,
        }
    }
}

impl Described for QueryFault {
    ghost says = { query_sentence };

    fn sentence(&self) -> &'static str {
        match self {
            QueryFault::BadSheet(fault) => fault.sentence(),
            QueryFault::BadSize => "The text is empty or has too many bytes.",
            QueryFault::Broken(_) => "From here on this is no query.",
            QueryFault::TooDeep(_) => "With this bracket too many are open.",
            QueryFault::TooLong => "There are too many steps, `and`, `or` and `not`.",
            QueryFault::UnknownName(_) => "This name is not known.",
            QueryFault::ShortTable => "The query table has too few places.",
        }
    }
}

impl From<NamesFault> for QueryFault {
    ghost from_gives = { λ f e. e ≡ BadSheet f };

    fn from(fault: NamesFault) -> QueryFault {
        QueryFault::BadSheet(fault)
    }
}

// Reads the whole text into the draft, or answers where the grammar is broken.
fn parse<N: Naming>(text: &[u8], names: &N, draft: &mut Draft) -> Result<(), QueryFault>
    ensures { Drafted text.now (N.labels names.now) draft.old draft.new result }
{
    let [b'/', more @ ..] = text else {
        return Err(QueryFault::Broken(0));
    };
    match spine(more, names, draft) {
        Ok([]) => Ok(()),
        Ok(rest) => Err(QueryFault::Broken(text.len() - rest.len())),
        Err(stuck) => Err(QueryFault::Broken(text.len() - stuck.left)),
    }
}

// Whether a text in the grammar is within the limits, with so many places in the table; else the first that it passes.
fn limit(text: &[u8], draft: &Draft, room: usize) -> Result<(), QueryFault>
    ensures { Limited text.now draft.now room result }
{
    if let Some(left) = draft.deep {
        return Err(QueryFault::TooDeep(text.len().saturating_sub(left).saturating_sub(1)));
    }
    if draft.count > MOST_LENGTH {
        return Err(QueryFault::TooLong);
    }
    if let Some(left) = draft.unknown {
        return Err(QueryFault::UnknownName(text.len().saturating_sub(left)));
    }
    if room < places(draft.count) {
        return Err(QueryFault::ShortTable);
    }
    Ok(())
}

// Writes the draft's parts into the first places of the table; the first one names the last.
fn copy(draft: &Draft, table: &mut [Part])
    requires some { 1 ≤ draft.now.used }
    requires drafted { draft.now.used ≤ most_parts }
    requires room { draft.now.used ≤ length table.old }
    ensures { Copied draft.now.used draft.now.parts table.old table.new }
{
    let used = draft.used;
    table[..used].copy_from_slice(&draft.parts[..used]);
    table[0] = Part {
        tag: Tag::First,
        first: used - 1,
        second: 0,
    };
}

// Reads a query text with the names of a source into the table and answers its size, or refuses it and leaves the table as it was. No other answer meets the definition, but for the places.
pub fn read<N: Naming>(text: &[u8], names: &N, table: &mut [Part]) -> Result<QuerySize, QueryFault>
    ensures answers { Answered text.now (N.labels names.now) table.old table.new result }
    ensures only { (other : Result QuerySize QueryFault) (new : List Part) → Answered text.now (N.labels names.now) table.old new other → steps_of other ≡ steps_of result }
    ensures small { SmallWhereRanged (N.labels names.now) table.new result }
{
    if text.is_empty() || text.len() > MOST_TEXT {
        return Err(QueryFault::BadSize);
    }
    let mut draft = start();
    parse(text, names, &mut draft)?;
    limit(text, &draft, table.len())?;
    copy(&draft, table);
    Ok(QuerySize {
        steps: draft.count,
        places: draft.used,
    })
}

// Compiles a query text with the names of a look-up into the table and answers its length, or refuses it and leaves the table as it was. No other answer meets the definition.
pub fn compile_with<N: Lookup>(
    text: &[u8],
    names: &N,
    table: &mut [Part],
) -> Result<usize, QueryFault>
    ensures answers { CompiledAs text.now (N.labels names.now) table.old table.new result }
    ensures only { (other : Result ℕ QueryFault) (new : List Part) → CompiledAs text.now (N.labels names.now) table.old new other → other ≡ result }
    ensures written { ReadsAsWritten text.now (N.labels names.now) table.new result }
    ensures small { IfOk result (λ l. SmallParts table.new) }
    ensures past { IfOk result (λ l. KeptPast table.old table.new) }
{
    let size = read(text, names, table)?;
    Ok(size.steps)
}

// Compiles a query text with the names of a sheet. A sheet that is refused is the first fault.
pub fn compile(text: &[u8], sheet: &Sheet, table: &mut [Part]) -> Result<usize, QueryFault>
    ensures answers { CompiledWith (fault_of sheet.now) text.now (labels_of sheet.now) table.old table.new result }
    ensures only { (other : Result ℕ QueryFault) (new : List Part) → CompiledWith (fault_of sheet.now) text.now (labels_of sheet.now) table.old new other → other ≡ result }
    ensures written { ReadsAsWritten text.now (labels_of sheet.now) table.new result }
    ensures small { IfOk result (λ l. SmallParts table.new) }
    ensures past { IfOk result (λ l. KeptPast table.old table.new) }
{
    if let Some(fault) = sheet.fault() {
        return Err(fault.into());
    }
    compile_with(text, sheet, table)
}

// A text that is a query and within all limits is refused by nothing: it is accepted.
pub fn fitting_is_accepted()
    ensures { FittingIsAccepted }
{}

// A theorem, with nothing to compute: whatever parts they are, taken one by one they give the formula of the one query that they read as.
pub fn table_reads_as_formula()
    ensures { TablesPartByPart }
{}

// At most one fault applies to a text.
pub fn one_fault()
    ensures { OneFault }
{}

// A theorem: the table of an accepted text reads as what the text's one tree means.
pub fn table_reads_as_text()
    ensures { AcceptedAsWritten }
{}
