use dataguide::GuideFault;
use doem_history::HistoryFault;
use dump_text::DumpFault;
use lore_base::{Failed, NoMemory};
use lore_store::{RestoreFault, StoreFault};
use lorel_bind::BindFault;
use lorel_lex::LexFault;
use lorel_parse::ParseFault;
use oem_text::{LocalFault, TextFault};
use std::alloc::Global;
use std::fmt::Display;
use std::test::Fail;
use updates::UpdateFault;

const MEMORY: &str = "out of memory";

const TWO_OBJECTS: &str = "a local marks two objects";

const NO_OBJECT: &str = "a local marks no object";

const SPENT: &str = "the numbers of objects are spent";

// Fails where the fault says something else.
fn check<F: Display>(alloc: Global, fault: &F, text: &'static str) -> Result<(), Fail> {
    if format!(in alloc; "{fault}")?.as_str() == text {
        Ok(())
    } else {
        Err(Fail::new(text))
    }
}

fn check_lowest(alloc: Global) -> Result<(), Fail> {
    check(alloc, &NoMemory, MEMORY)?;
    check(alloc, &Failed, "a read or a write failed")
}

fn check_tokens(alloc: Global) -> Result<(), Fail> {
    for (fault, text) in [
        (LexFault::BadToken, "some bytes are no token"),
        (LexFault::RealRefused, "a number has a fraction"),
        (LexFault::NumberRange, "a number is out of range"),
        (
            LexFault::TextTooLong,
            "a text, a word or a label is too long",
        ),
        (LexFault::NoMemory, MEMORY),
    ] {
        check(alloc, &fault, text)?;
    }
    Ok(())
}

fn check_statements(alloc: Global) -> Result<(), Fail> {
    check(alloc, &ParseFault::Syntax, "not a statement")?;
    check(alloc, &ParseFault::NoMemory, MEMORY)
}

fn check_selects(alloc: Global) -> Result<(), Fail> {
    for (fault, text) in [
        (BindFault::UnknownName, "a path starts at an unknown name"),
        (
            BindFault::UnknownVariable,
            "a path starts at a variable that is not in scope, or path-of names \
             a path variable that no range has",
        ),
        (BindFault::DuplicateVariable, "a variable is ranged twice"),
        (
            BindFault::TooManyRanges,
            "too many ranges, items or path leaves",
        ),
        (BindFault::NoMemory, MEMORY),
    ] {
        check(alloc, &fault, text)?;
    }
    Ok(())
}

fn check_literals(alloc: Global) -> Result<(), Fail> {
    for (fault, text) in [
        (TextFault::DuplicateLocal, TWO_OBJECTS),
        (TextFault::UndefinedLocal, NO_OBJECT),
        (TextFault::OidsSpent, SPENT),
        (TextFault::TooManyLabels, "too many labels"),
        (TextFault::NoMemory, MEMORY),
    ] {
        check(alloc, &fault, text)?;
    }
    Ok(())
}

fn check_locals(alloc: Global) -> Result<(), Fail> {
    check(alloc, &LocalFault::DuplicateLocal, TWO_OBJECTS)?;
    check(alloc, &LocalFault::UndefinedLocal, NO_OBJECT)?;
    check(alloc, &LocalFault::NoMemory, MEMORY)
}

fn check_dumps(alloc: Global) -> Result<(), Fail> {
    let bad = "the dump text stands for no valid database";
    check(alloc, &DumpFault::Bad, bad)?;
    check(alloc, &DumpFault::NoMemory, MEMORY)
}

fn check_guides(alloc: Global) -> Result<(), Fail> {
    let nodes = "more target sets than the limit on the guide's nodes";
    check(alloc, &GuideFault::Nodes, nodes)?;
    let cells = "more members of target sets than a guide may have";
    check(alloc, &GuideFault::Cells, cells)?;
    check(alloc, &GuideFault::NoMemory, MEMORY)
}

fn check_histories(alloc: Global) -> Result<(), Fail> {
    check(alloc, &HistoryFault::Full, "the history is full")?;
    check(alloc, &HistoryFault::NoMemory, MEMORY)
}

fn check_updates(alloc: Global) -> Result<(), Fail> {
    for (fault, text) in [
        (UpdateFault::DuplicateLocal, TWO_OBJECTS),
        (UpdateFault::UndefinedLocal, NO_OBJECT),
        (
            UpdateFault::AtomicParent,
            "an edge would leave an atomic object",
        ),
        (
            UpdateFault::HasChildren,
            "an object that an edge leaves would get an atomic value",
        ),
        (UpdateFault::OidsSpent, SPENT),
        (UpdateFault::TooManyLabels, "too many labels"),
        (UpdateFault::TooManyObjects, "too many objects"),
        (UpdateFault::TooManyEdges, "too many edges"),
        (UpdateFault::NoMemory, MEMORY),
    ] {
        check(alloc, &fault, text)?;
    }
    Ok(())
}

fn check_stores(alloc: Global) -> Result<(), Fail> {
    for (fault, text) in [
        (StoreFault::TooManyNames, "too many names"),
        (StoreFault::TooManyObjects, "too many objects"),
        (StoreFault::TooManyEdges, "too many edges"),
        (StoreFault::GuideNodes, "too many nodes of the guide"),
        (
            StoreFault::GuideCells,
            "too many members of the guide's sets",
        ),
        (StoreFault::NoMemory, MEMORY),
    ] {
        check(alloc, &fault, text)?;
    }
    Ok(())
}

fn check_restores(alloc: Global) -> Result<(), Fail> {
    let nodes = "too many nodes of the guide";
    check(alloc, &RestoreFault::GuideNodes, nodes)?;
    let cells = "too many members of the guide's sets";
    check(alloc, &RestoreFault::GuideCells, cells)?;
    check(alloc, &RestoreFault::NoMemory, MEMORY)
}

#[test]
fn faults_say_what_they_are(rt: HostRuntime) -> Result<(), Fail> {
    check_lowest(rt.alloc())?;
    check_tokens(rt.alloc())?;
    check_statements(rt.alloc())?;
    check_selects(rt.alloc())?;
    check_literals(rt.alloc())?;
    check_locals(rt.alloc())?;
    check_dumps(rt.alloc())?;
    check_guides(rt.alloc())?;
    check_histories(rt.alloc())?;
    check_updates(rt.alloc())?;
    check_stores(rt.alloc())?;
    check_restores(rt.alloc())
}
