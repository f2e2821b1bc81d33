ghost use Rattle.std.specs.Prelude.{◌≡◌, ℕ, ◌+◌, ◌≤◌, List, [], ◌∷◌, ◌++◌, length, map, option_map};
ghost use Rattle.std.specs.Prelude.{IfOk, OnOk, MatchOption};
ghost use Rattle.lorel_trees.specs.Trees.{from_tree, item_tree, select_tree, cond_tree, conds_from};
ghost use Rattle.lorel_trees.specs.Trees.{operand_tree, ItemTree};
ghost use Rattle.lorel_ranges.specs.Types.{NESTING};
ghost use Rattle.lorel_ranges.specs.Places.{Scope, Place as ThePlace, path_variables};
ghost use Rattle.lorel_ranges.specs.Conditions.{cond_in, conds_in, operand_in};
ghost use Rattle.lorel_bound.specs.Conditions.{paths_in, paths_of, paths_of_all, operand_paths};
ghost use Rattle.lorel_ranges.specs.Texts.{item_variables, cond_variables, quantifier_variables};
ghost use Rattle.lorel_ranges.specs.Texts.{all_quantifier_variables};
ghost use Rattle.lorel_ranges.specs.Texts.{IsShallow, depth_of, depth_of_all};
ghost use Rattle.lorel_ranges.specs.Views.{place_trees, texts};
ghost use Rattle.lorel_ranges.specs.inside.Scopes.{places_found, FindAlike};
ghost use Rattle.lorel_ranges.specs.Scopes.{enclosed, IsScope, names_of};
ghost use Rattle.lorel_ranges.specs.Readings.{IsTextOf, ReadsFrom, ReadsItems};

use crate::path_variables::PathVariables;
use crate::places::Place;
use crate::variables::Variables;
use lore_base::{NoMemory, OemText};
use lorel_trees::{Cond, FromItem, Item, Operand, Rooted, Select};
use std::alloc::Global;

/// What the paths of a select stand for, and which identifiers it ranges, in text order.
#[derive(Drop)]
pub struct Text<'q> {
    /// The from items.
    pub from: TextPart<'q>,
    /// The object variables that these bring into scope.
    pub variables: Variables<'q>,
    /// The items.
    pub items: ShownItems<'q>,
    /// How many items there are.
    pub item_count: usize,
    /// The condition.
    pub condition: TextPart<'q>,
}

/// The paths among some items, and what each item shows. One that names a path variable which no
/// from item has shows nothing.
#[derive(Drop)]
pub struct ShownItems<'q> {
    /// The places of those paths.
    pub places: Vec<Place<'q>>,
    /// What the items show, each in a cell of a row.
    pub cells: Vec<Shown<'q>>,
    /// Whether some item names such a path variable.
    pub unknown: bool,
}

/// What an item shows.
#[derive(Clone, Copy)]
pub enum Shown<'q> {
    /// The object of a place.
    Object(Place<'q>),
    /// The word by which the range of a place is reached.
    Word(Place<'q>),
}

/// The places of some paths, and the identifiers that are ranged there.
#[derive(Drop)]
pub struct TextPart<'q> {
    pub places: Vec<Place<'q>>,
    pub ranged: Vec<&'q OemText>,
}

/// Reads the text of a select: finds what each of its paths starts at and what each item shows, and
/// notes the identifiers that it ranges. It takes steps linear in the text.
pub fn text_of<'q>(alloc: Global, query: &'q Select) -> Result<Text<'q>, NoMemory>
    requires shallow { IsShallow (select_tree query.now) }
    ensures { IfOk result (IsTextOf (select_tree query.now)) }
{
    let ranges = query.tail.ranges.as_slice();
    let mut variables = Variables::new(alloc);
    match from_text(alloc, ranges, &mut variables) {
        Ok(from) => text_behind(alloc, query, from, variables),
        Err(error) => {
            drop(variables);
            Err(error)
        }
    }
}

// The text of a select whose from items were read. What is let go at each way out of a function is
// proved there, at length, so that what is read one after another stands in functions of its own.
fn text_behind<'q>(
    alloc: Global,
    query: &'q Select,
    from: TextPart<'q>,
    variables: Variables<'q>,
) -> Result<Text<'q>, NoMemory>
    requires shallow { IsShallow (select_tree query.now) }
    requires from { ReadsFrom (select_tree query.now).tail.ranges from variables }
    ensures { IfOk result (IsTextOf (select_tree query.now)) }
{
    match items_and_condition(alloc, query, &variables) {
        Ok((items, condition)) => Ok(Text {
            from,
            variables,
            items,
            item_count: query.items.len(),
            condition,
        }),
        Err(error) => {
            drop(from);
            drop(variables);
            Err(error)
        }
    }
}

// The items and the condition of a select, where these variables are in scope.
fn items_and_condition<'q>(
    alloc: Global,
    query: &'q Select,
    variables: &Variables<'q>,
) -> Result<(ShownItems<'q>, TextPart<'q>), NoMemory>
    requires shallow { IsShallow (select_tree query.now) }
    ensures items { let tree = select_tree query.now in IfOk result (λ found. (scope : Scope)
        → IsScope (names_of variables.now) scope
        → ReadsItems scope (path_variables tree.tail.ranges) tree.items found.0) }
    ensures places { let tree = select_tree query.now in IfOk result (λ found. (scope : Scope)
        → IsScope (names_of variables.now) scope → place_trees found.1.places.items
        ≡ paths_in (option_map (cond_in scope 0) tree.tail.cond)) }
    ensures ranged { let tree = select_tree query.now in IfOk result (λ found.
        texts found.1.ranged.items ≡ cond_variables tree.tail.cond) }
{
    let items = items_of(alloc, query, variables)?;
    match condition_text(alloc, &query.tail.cond, variables) {
        Ok(condition) => Ok((items, condition)),
        Err(error) => {
            drop(items);
            Err(error)
        }
    }
}

// The items of a select, where these variables are in scope and the path variables of its from items
// are known.
fn items_of<'q>(
    alloc: Global,
    query: &'q Select,
    variables: &Variables<'q>,
) -> Result<ShownItems<'q>, NoMemory>
    ensures { let tree = select_tree query.now in IfOk result (λ items. (scope : Scope)
        → IsScope (names_of variables.now) scope
        → ReadsItems scope (path_variables tree.tail.ranges) tree.items items) }
{
    let ranges = query.tail.ranges.as_slice();
    let words = PathVariables::from_items(alloc, ranges)?;
    let items = item_text(alloc, query.items.as_slice(), variables, &words);
    drop(words);
    items
}

// The paths of from items. The variable of each is in scope behind it.
fn from_text<'q>(
    alloc: Global,
    items: &'q [FromItem],
    variables: &mut Variables<'q>,
) -> Result<TextPart<'q>, NoMemory>
    requires { variables.old ≡ [] }
    ensures { IfOk result (λ found. ReadsFrom (map from_tree items.now) found variables.new) }
{
    let mut found = TextPart::new(alloc);
    found.places.reserve(items.len())?;
    'items: for (number, item) in items.iter().enumerate() {
        found.places.push(variables.place(&[], &item.path))?;
        found.note(&item.word)?;
        found.note(&item.variable)?;
        variables.add_first(&item.variable, number)?;
    }
    Ok(found)
}

// The items, where these path variables are known.
fn item_text<'q>(
    alloc: Global,
    list: &'q [Item],
    variables: &Variables<'q>,
    words: &PathVariables<'q>,
) -> Result<ShownItems<'q>, NoMemory>
    ensures { IfOk result (λ items. (scope : Scope) (known : List (List ℕ × ThePlace))
        → IsScope (names_of variables.now) scope → FindAlike (places_found words.now) known
        → ReadsItems scope known (map item_tree list.now) items) }
{
    let mut items = ShownItems::new(alloc);
    'items: for item in list {
        items.add(variables, words, item)?;
    }
    Ok(items)
}

impl<'q> ShownItems<'q> {
    // No item. Takes no memory.
    fn new(alloc: Global) -> ShownItems<'q>
        ensures { (scope : Scope) (known : List (List ℕ × ThePlace))
            → ReadsItems scope known [] result }
    {
        ShownItems {
            places: Vec::new(alloc),
            cells: Vec::new(alloc),
            unknown: false,
        }
    }

    // Adds an item.
    fn add(
        &mut self,
        variables: &Variables<'q>,
        words: &PathVariables<'q>,
        item: &'q Item,
    ) -> Result<(), NoMemory>
        ensures { OnOk result ((scope : Scope) (known : List (List ℕ × ThePlace))
            (earlier : List ItemTree) → IsScope (names_of variables.now) scope
            → FindAlike (places_found words.now) known → ReadsItems scope known earlier self.old
            → ReadsItems scope known (earlier ++ item_tree item.now ∷ []) self.new) }
    {
        match item {
            Item::Object(path) => {
                let place = variables.place(&[], path);
                self.places.push(place)?;
                self.cells.push(Shown::Object(place))?;
                Ok(())
            }
            Item::PathOf(variable) => match words.place(variable) {
                Some(place) => {
                    self.cells.push(Shown::Word(place))?;
                    Ok(())
                }
                None => {
                    self.unknown = true;
                    Ok(())
                }
            },
        }
    }
}

// The paths of a condition, if there is one, and the variables of its quantifiers.
fn condition_text<'q>(
    alloc: Global,
    cond: &'q Option<Cond>,
    variables: &Variables<'q>,
) -> Result<TextPart<'q>, NoMemory>
    requires { MatchOption cond.now (Unit {0}) (λ cond. depth_of (cond_tree cond) ≤ NESTING) }
    ensures places { IfOk result (λ found. (scope : Scope) → IsScope (names_of variables.now) scope
        → place_trees found.places.items
        ≡ paths_in (option_map (cond_in scope 0) (option_map cond_tree cond.now))) }
    ensures ranged { IfOk result (λ found.
        texts found.ranged.items ≡ cond_variables (option_map cond_tree cond.now)) }
{
    let mut found = TextPart::new(alloc);
    match cond {
        Some(cond) => {
            found.add_cond(alloc, variables, &[], cond)?;
            Ok(found)
        }
        None => Ok(found),
    }
}

impl<'q> TextPart<'q> {
    fn new(alloc: Global) -> TextPart<'q>
        ensures places { result.places.items ≡ [] }
        ensures ranged { result.ranged.items ≡ [] }
    {
        TextPart {
            places: Vec::new(alloc),
            ranged: Vec::new(alloc),
        }
    }

    // Notes an identifier that is ranged, if there is one.
    fn note(&mut self, identifier: &'q Option<OemText>) -> Result<(), NoMemory>
        ensures places { OnOk result (self.new.places.items ≡ self.old.places.items) }
        ensures ranged { OnOk result (texts self.new.ranged.items
            ≡ texts self.old.ranged.items ++ item_variables identifier.now) }
    {
        match identifier {
            Some(text) => {
                self.ranged.push(text)?;
                Ok(())
            }
            None => Ok(()),
        }
    }

    // Adds the paths of a condition and the variables of its quantifiers, where these variables of
    // quantifiers are in scope around it, the outermost first.
    #[cycle(add)]
    fn add_cond(
        &mut self,
        alloc: Global,
        variables: &Variables<'q>,
        quantified: &[&'q OemText],
        cond: &'q Cond,
    ) -> Result<(), NoMemory>
        requires { length quantified.now + depth_of (cond_tree cond.now) ≤ NESTING }
        ensures places { OnOk result ((scope : Scope) → IsScope (names_of variables.now) scope
            → place_trees self.new.places.items ≡ place_trees self.old.places.items
            ++ paths_of (cond_in (enclosed 0 (texts quantified.now) scope)
            (length quantified.now) (cond_tree cond.now))) }
        ensures ranged { OnOk result (texts self.new.ranged.items
            ≡ texts self.old.ranged.items ++ quantifier_variables (cond_tree cond.now)) }
    {
        match cond {
            Cond::Or(members) | Cond::And(members) => {
                self.add_conds(alloc, variables, quantified, members.as_slice())
            }
            Cond::Not(body) => self.add_cond(alloc, variables, quantified, body),
            Cond::Exists {
                variable,
                path,
                body,
            }
            | Cond::ForAll {
                variable,
                path,
                body,
            } => {
                self.places.push(variables.place(quantified, path))?;
                self.ranged.push(variable)?;
                let inner = quantifiers_around(alloc, quantified, variable)?;
                self.add_cond(alloc, variables, inner.as_slice(), body)
            }
            Cond::Compare { left, right, .. } => {
                self.add_operand(variables, quantified, left)?;
                self.add_operand(variables, quantified, right)
            }
            Cond::Same { left, right } => {
                self.places.push(variables.place(quantified, left))?;
                self.places.push(variables.place(quantified, right))?;
                Ok(())
            }
        }
    }

    #[cycle(add)]
    fn add_conds(
        &mut self,
        alloc: Global,
        variables: &Variables<'q>,
        quantified: &[&'q OemText],
        conds: &'q [Cond],
    ) -> Result<(), NoMemory>
        requires { length quantified.now + depth_of_all (conds_from (map cond_tree conds.now))
            ≤ NESTING }
        ensures places { OnOk result ((scope : Scope) → IsScope (names_of variables.now) scope
            → place_trees self.new.places.items ≡ place_trees self.old.places.items
            ++ paths_of_all (conds_in (enclosed 0 (texts quantified.now) scope)
            (length quantified.now) (conds_from (map cond_tree conds.now)))) }
        ensures ranged { OnOk result (texts self.new.ranged.items ≡ texts self.old.ranged.items
            ++ all_quantifier_variables (conds_from (map cond_tree conds.now))) }
    {
        'conds: for cond in conds {
            self.add_cond(alloc, variables, quantified, cond)?;
        }
        Ok(())
    }

    fn add_operand(
        &mut self,
        variables: &Variables<'q>,
        quantified: &[&'q OemText],
        operand: &'q Operand,
    ) -> Result<(), NoMemory>
        requires { length quantified.now ≤ NESTING }
        ensures places { OnOk result ((scope : Scope) → IsScope (names_of variables.now) scope
            → place_trees self.new.places.items ≡ place_trees self.old.places.items
            ++ operand_paths (operand_in (enclosed 0 (texts quantified.now) scope)
            (operand_tree operand.now))) }
        ensures ranged { OnOk result (self.new.ranged.items ≡ self.old.ranged.items) }
    {
        match operand {
            Operand::At(path) => {
                self.places.push(variables.place(quantified, path))?;
                Ok(())
            }
            Operand::Atom(_) => Ok(()),
        }
    }
}

/// The variables of the quantifiers around the body of a further one, the outermost first: these,
/// and its own.
pub fn quantifiers_around<'q>(
    alloc: Global,
    quantified: &[&'q OemText],
    variable: &'q OemText,
) -> Result<Vec<&'q OemText>, NoMemory>
    ensures { IfOk result (λ inner. texts inner.items ≡ texts quantified.now ++ variable.now ∷ []) }
{
    let mut inner = Vec::with_capacity(alloc, quantified.len() + 1)?;
    inner.extend_from_slice(quantified)?;
    inner.push(variable)?;
    Ok(inner)
}
