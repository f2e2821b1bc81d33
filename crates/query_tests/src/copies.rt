use crate::conditions::leading_to;
use lore_base::limits::CHUNK_BYTES;
use lore_base::{Label, Listing, NoMemory, Oid, Path, TryCopy, Word};
use lorel_bound::{
    Answer, AnswerRow, Bound, BoundCond, Cell, CellList, CellOf, PlanStep, PlanSteps, Range,
    RangeList, Start,
};
use lorel_lex::{Kind, TokenList, tokens};
use std::alloc::Global;
use std::test::Fail;

// Values that tell whether they are what was made for a test.
trait AsMade {
    fn is_as_made(&self) -> bool;
}

// Copies a value, lets it go, and tells whether the copy is as the value was made. That a value can
// be let go is proved in each place where it may be, and in few words where its type is a
// parameter.
fn is_copied<T: TryCopy + AsMade + Drop>(alloc: Global, value: T) -> Result<bool, NoMemory> {
    let copy = value.try_copy(alloc);
    drop(value);
    let copy = copy?;
    let is_as_made = copy.is_as_made();
    drop(copy);
    Ok(is_as_made)
}

fn check_copied<T: TryCopy + AsMade + Drop>(
    alloc: Global,
    made: Result<T, NoMemory>,
) -> Result<(), Fail> {
    if is_copied(alloc, made?)? {
        Ok(())
    } else {
        Err(Fail::new("a copy is otherwise than what was copied"))
    }
}

// A list of one item.
fn one<T: Drop>(alloc: Global, item: T) -> Result<Listing<T>, NoMemory> {
    let mut list = Listing::new(alloc);
    list.push(item)?;
    Ok(list)
}

// A list of two items.
fn two<T: Drop>(alloc: Global, first: T, second: T) -> Result<Listing<T>, NoMemory> {
    let mut list = one(alloc, first)?;
    list.push(second)?;
    Ok(list)
}

// Both values, where there was memory for both.
fn both<A: Drop, B: Drop>(
    first: Result<A, NoMemory>,
    second: Result<B, NoMemory>,
) -> Result<(A, B), NoMemory> {
    let second = second?;
    Ok((first?, second))
}

fn boxed<T: Drop>(alloc: Global, value: T) -> Result<Box<T>, NoMemory> {
    Ok(Box::new(alloc, value)?)
}

// A chunk that has none counts as want of memory.
fn tokens_of(alloc: Global, chunk: &[u8]) -> Result<TokenList, NoMemory> {
    if chunk.len() > CHUNK_BYTES {
        return Err(NoMemory);
    }
    match tokens(alloc, chunk) {
        Ok(tokens) => Ok(tokens),
        Err(_) => Err(NoMemory),
    }
}

fn digit(kind: &Kind) -> u64 {
    match kind {
        Kind::Word(_) => 1,
        Kind::Quoted(_) => 2,
        Kind::Wild(_) => 3,
        Kind::Chars(_) => 4,
        Kind::Number(_) => 5,
        Kind::Local(_) => 6,
        Kind::PathOf => 7,
        Kind::Symbol(_) => 8,
    }
}

// The kinds of the tokens as digits.
fn digits(tokens: &TokenList) -> u64 {
    let mut digits = 0_u64;
    for token in tokens.as_slice() {
        digits = digits.wrapping_mul(10).wrapping_add(digit(&token.kind));
    }
    digits
}

impl AsMade for TokenList {
    fn is_as_made(&self) -> bool {
        digits(self) == 12_345_678
    }
}

#[test]
fn tokens_are_copied(rt: HostRuntime) -> Result<(), Fail> {
    let tokens = tokens_of(rt.alloc(), b"ab 'c d' %x \"t\" -5 &7 path-of @");
    check_copied(rt.alloc(), tokens)
}

fn cells(alloc: Global) -> Result<CellList, NoMemory> {
    two(alloc, CellOf::Object(Start::Slot(0)), CellOf::PathOf(0))
}

fn ranges(alloc: Global) -> Result<RangeList, NoMemory> {
    let range = Range {
        start: Start::Named(Oid(1)),
        path: Path::Any,
    };
    one(alloc, range)
}

fn condition(alloc: Global) -> Result<BoundCond, NoMemory> {
    Ok(BoundCond::Not(boxed(alloc, leading_to(30))?))
}

// A select of one range: it shows its objects and the words that lead to them, where a condition
// doesn't hold.
fn select(alloc: Global) -> Result<Bound, NoMemory> {
    let lists = both(ranges(alloc), cells(alloc));
    let ((ranges, cells), cond) = both(lists, condition(alloc))?;
    Ok(Bound {
        ranges,
        cells,
        cond: Some(cond),
    })
}

impl AsMade for Bound {
    fn is_as_made(&self) -> bool {
        self.ranges.len() == 1
            && self.cells.len() == 2
            && matches!(&self.cond, Some(BoundCond::Not(_)))
    }
}

#[test]
fn a_bound_select_is_copied(rt: HostRuntime) -> Result<(), Fail> {
    check_copied(rt.alloc(), select(rt.alloc()))
}

// The steps of a plan: one range is walked, and the condition tested.
fn plan_steps(alloc: Global) -> Result<PlanSteps, NoMemory> {
    let walk = PlanStep::Forward {
        start: Start::Named(Oid(1)),
        path: Path::Any,
        slot: 0,
    };
    two(alloc, walk, PlanStep::Filter)
}

impl AsMade for PlanSteps {
    fn is_as_made(&self) -> bool {
        matches!(self.get(0), Some(PlanStep::Forward { slot: 0, .. }))
            && matches!(self.get(1), Some(PlanStep::Filter))
    }
}

#[test]
fn steps_of_a_plan_are_copied(rt: HostRuntime) -> Result<(), Fail> {
    check_copied(rt.alloc(), plan_steps(rt.alloc()))
}

fn word(alloc: Global) -> Result<Word, NoMemory> {
    two(alloc, Label(1), Label(0))
}

fn put_cells(alloc: Global, row: &mut AnswerRow) -> Result<(), NoMemory> {
    row.push(Cell::Object(Oid(2)))?;
    row.push(Cell::Path(word(alloc)?))
}

fn row(alloc: Global) -> Result<AnswerRow, NoMemory> {
    let mut row = AnswerRow::new(alloc);
    put_cells(alloc, &mut row)?;
    Ok(row)
}

// An answer of one row, which shows an object and a word of two labels.
fn answer(alloc: Global) -> Result<Answer, NoMemory> {
    let row = row(alloc)?;
    let mut answer = Answer::new(alloc);
    answer.push(row)?;
    Ok(answer)
}

fn are_labels(labels: &[Label]) -> bool {
    match labels {
        [first, second] => first.0 == 1 && second.0 == 0,
        _ => false,
    }
}

// Whether the cells are those of that row.
fn are_cells(cells: &[Cell]) -> bool {
    match cells {
        [Cell::Object(oid), Cell::Path(word)] => oid.0 == 2 && are_labels(word.as_slice()),
        _ => false,
    }
}

impl AsMade for Answer {
    fn is_as_made(&self) -> bool {
        match self.get(0) {
            Some(row) => self.len() == 1 && are_cells(row.as_slice()),
            None => false,
        }
    }
}

#[test]
fn an_answer_is_copied(rt: HostRuntime) -> Result<(), Fail> {
    check_copied(rt.alloc(), answer(rt.alloc()))
}
