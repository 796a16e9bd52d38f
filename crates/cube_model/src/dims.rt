// Dimensions and measures with their names, as a dimension file describes them.
ghost use Rattle.std.specs.Prelude.{◌≡◌, ◌<◌, ◌≤◌, ◌^◌, ◌++◌, ◌∷◌, [], false, length, map, slice_index_or, vec_len, vec_capacity, if◌then◌else◌, true, Some, IfOk, OnOk, OnErr};
ghost use Rattle.std.specs.List.{list_any, position_or_len};
ghost use Rattle.std.specs.Str.{bytes_eq};
ghost use Rattle.indexmap.specs.IndexSet.{insert_key};
ghost use Rattle.cube_model.specs.Cubes.{up, names_at, place_of, distinct};
ghost use Rattle.cube_model.specs.Dims.{AreDistinct, plain, found, dimension_at, measure_at, ancestor_names, IsDimension, IsMeasure, IsDims};

use crate::{Items, NoMemory, Recent, Text, Texts};
use indexmap::IndexSet;
use std::alloc::Global;
use std::marker::Model;

// How many slots there are for the names that were put last.
const RECENT: usize = 4096;

/// Names in a row, each kept once under a number, in the order of their first appearance: the
/// members of one level, where the names are those of the ancestors of the leaves.
///
/// A contract sees the names in their places.
#[derive(Drop)]
pub struct NumberedNames {
    names: IndexSet<Vec<u8>>,
    numbers: Vec<u32>,
    firsts: Vec<u32>,
    recent: Recent,
}

impl Model for NumberedNames {
    ghost use Rattle.std.specs.Prelude.{ℕ, List, [], map, slice_index_or};
    ghost use Rattle.cube_model.specs.Dims.{AreNumbered};

    ghost Value = { List (List ℕ) };

    ghost view = { λ s. map (λ n. slice_index_or (map (λ k. k.items) s.names.keys) n []) s.numbers.items };

    ghost invariant = { λ s. AreNumbered (map (λ n. slice_index_or (map (λ k. k.items) s.names.keys) n []) s.numbers.items) (map (λ k. k.items) s.names.keys) s.numbers.items s.firsts.items };
}

/// The member that a path names at a level, or no bytes where it names none.
fn name_at(path: &Texts, level: usize) -> &[u8]
    ensures { result.now ≡ slice_index_or path.now level [] }
{
    match path.get(level) {
        Some(name) => name.as_slice(),
        None => &[],
    }
}

/// Puts an item into room that is there.
fn push_within(list: &mut Vec<u32>, item: u32)
    requires { vec_len list.old < vec_capacity list.old }
    ensures { list.new.items ≡ list.old.items ++ item ∷ [] }
{
    match list.push(item) {
        Ok(()) => {}
        Err(_) => unreachable!(),
    }
}

/// Adds a name that is not there.
fn add(names: &mut IndexSet<Vec<u8>>, name: Vec<u8>) -> Result<usize, NoMemory>
    requires { list_any (bytes_eq name.items) (map (λ k. k.items) names.old.keys) ≡ false }
    ensures names { IfOk result (λ r. map (λ k. k.items) names.new.keys ≡ map (λ k. k.items) names.old.keys ++ name.items ∷ []) }
    ensures number { IfOk result (λ r. r ≡ position_or_len (bytes_eq name.items) (map (λ k. k.items) names.old.keys)) }
    ensures err { OnErr result (names.new.keys ≡ names.old.keys) }
{
    let (number, _) = names.insert_full(name)?;
    Ok(number)
}

/// Whether a name has a number.
fn has_number(names: &IndexSet<Vec<u8>>, number: usize, name: &[u8]) -> bool
    requires { AreDistinct (map (λ k. k.items) names.now.keys) }
    ensures { result ≡ true → found name.now (map (λ k. k.items) names.now.keys) ≡ Some number }
{
    match names.get_index(number) {
        Some(other) => other.as_slice() == name,
        None => false,
    }
}

/// The number that a name has. Where it is the one that is guessed, nothing else is looked at.
fn known(names: &IndexSet<Vec<u8>>, guess: Option<usize>, name: &[u8]) -> Option<usize>
    requires { AreDistinct (map (λ k. k.items) names.now.keys) }
    ensures { result ≡ found name.now (map (λ k. k.items) names.now.keys) }
{
    if let Some(number) = guess {
        if has_number(names, number, name) {
            return guess;
        }
    }
    names.get_index_of(name)
}

/// The number of a name, the one that it has or the next. A new name is noted with its place.
fn number(
    alloc: Global,
    names: &mut IndexSet<Vec<u8>>,
    firsts: &mut Vec<u32>,
    guess: Option<usize>,
    name: &[u8],
    place: u32,
) -> Result<usize, NoMemory>
    requires room { vec_len firsts.old < vec_capacity firsts.old }
    requires once { AreDistinct (map (λ k. k.items) names.old.keys) }
    ensures names { IfOk result (λ r. map (λ k. k.items) names.new.keys ≡ insert_key bytes_eq (map (λ k. k.items) names.old.keys) name.now) }
    ensures number { IfOk result (λ r. r ≡ position_or_len (bytes_eq name.now) (map (λ k. k.items) names.old.keys)) }
    ensures firsts { IfOk result (λ r. firsts.new.items ≡ (if list_any (bytes_eq name.now) (map (λ k. k.items) names.old.keys) then firsts.old.items else firsts.old.items ++ place ∷ [])) }
    ensures err { OnErr result (names.new.keys ≡ names.old.keys) }
    ensures same { OnErr result (firsts.new.items ≡ firsts.old.items) }
{
    match known(names, guess, name) {
        Some(number) => Ok(number),
        None => {
            let number = add(names, Vec::from_slice(alloc, name)?)?;
            push_within(firsts, place);
            Ok(number)
        }
    }
}

impl NumberedNames {
    /// No names.
    pub fn new(alloc: Global) -> Self
        ensures { result ≡ [] }
    {
        NumberedNames {
            names: IndexSet::new(alloc),
            numbers: Vec::new(alloc),
            firsts: Vec::new(alloc),
            recent: Recent::none(alloc),
        }
    }

    /// Puts one more name at the end. Memory is taken for its bytes only where it is new.
    pub fn push(&mut self, alloc: Global, name: &[u8]) -> Result<(), NoMemory>
        requires { length self.old < 2 ^ 32 }
        ensures ok { OnOk result (self.new ≡ self.old ++ name.now ∷ []) }
        ensures err { OnErr result (self.new ≡ self.old) }
    {
        self.numbers.reserve(1)?;
        self.firsts.reserve(1)?;
        self.recent.make_slots(alloc, RECENT)?;
        let place = self.numbers.len() as u32;
        let slot = self.recent.slot(0, name);
        let guess = self.recent.guess(slot);
        let number = number(alloc, &mut self.names, &mut self.firsts, guess, name, place)?;
        self.recent.note(slot, number);
        push_within(&mut self.numbers, number as u32);
        Ok(())
    }

    /// The names with one more behind them. No list is walked.
    pub fn with_name(self, alloc: Global, name: &[u8]) -> Result<Self, NoMemory>
        ensures { IfOk result (λ names. names ≡ self ++ name.now ∷ []) }
    {
        let mut names = self;
        if names.len() > u32::MAX as usize {
            return Err(NoMemory);
        }
        names.push(alloc, name)?;
        Ok(names)
    }

    /// How many names there are, each counted as often as it stands.
    pub fn len(&self) -> usize
        ensures { result ≡ length self.now }
    {
        self.numbers.len()
    }

    /// The names that paths have at a level.
    pub fn at_level(alloc: Global, paths: &[Texts], level: usize) -> Result<Self, NoMemory>
        requires { length paths.now < 2 ^ 32 }
        ensures { IfOk result (λ names. names ≡ map (λ path. slice_index_or path level []) paths.now) }
    {
        let mut names = NumberedNames::new(alloc);
        for path in paths {
            names.push(alloc, name_at(path, level))?;
        }
        Ok(names)
    }

    /// The number of each of the names.
    pub fn numbers(&self) -> &[u32]
        ensures { result.now ≡ map (λ x. place_of x (distinct self.now)) self.now }
    {
        self.numbers.as_slice()
    }

    /// How many different names there are.
    pub fn count(&self) -> usize
        ensures { result ≡ length (distinct self.now) }
    {
        self.names.len()
    }

    /// The name with a number.
    pub fn name(&self, number: usize) -> &[u8]
        requires { number < length (distinct self.now) }
        ensures { result.now ≡ slice_index_or (distinct self.now) number [] }
    {
        match self.names.get_index(number) {
            Some(name) => name.as_slice(),
            None => unreachable!(),
        }
    }

    /// The number of a name, where it stands. No list is walked.
    pub fn find(&self, name: &[u8]) -> Option<usize>
        ensures { result ≡ found name.now (distinct self.now) }
    {
        self.names.get_index_of(name)
    }

    /// The number of the name in a place.
    pub fn number(&self, place: usize) -> u32
        requires { place < length self.now }
        ensures { result ≡ place_of (slice_index_or self.now place []) (distinct self.now) }
    {
        self.numbers[place]
    }

    /// The first place of the name in a place.
    pub fn first_alike(&self, place: usize) -> u32
        requires { place < length self.now }
        ensures { result ≡ place_of (slice_index_or self.now place []) self.now }
    {
        self.firsts[self.numbers[place] as usize]
    }
}

/// A dimension: a hierarchy of members, named from the leaf upwards by one path for each leaf.
///
/// The level behind the named ones is `all`, with one member.
#[derive(Drop)]
pub struct Dimension {
    name: Text,
    column: Text,
    levels: Texts,
    paths: Items<Texts>,
    members: Items<NumberedNames>,
}

impl Model for Dimension {
    ghost use Rattle.std.specs.Prelude.{◌≡◌};
    ghost use Rattle.cube_model.specs.Dims.{NamedDimension, IsDimension, ancestor_names};

    ghost Value = { NamedDimension };

    ghost view = { λ d. record { name = d.name; column = d.column; levels = d.levels; paths = d.paths } };

    ghost invariant = { λ d. IsDimension (record { name = d.name; column = d.column; levels = d.levels; paths = d.paths }) × (d.members ≡ ancestor_names (record { name = d.name; column = d.column; levels = d.levels; paths = d.paths })) };
}

impl Dimension {
    /// A dimension of parts that keep the rules; for each named level its members.
    pub fn from_parts(
        name: Text,
        column: Text,
        levels: Texts,
        paths: Items<Texts>,
        members: Items<NumberedNames>,
    ) -> Self
        requires rules { IsDimension (record { name = name; column = column; levels = levels; paths = paths }) }
        requires members { members ≡ ancestor_names (record { name = name; column = column; levels = levels; paths = paths }) }
        ensures { result ≡ record { name = name; column = column; levels = levels; paths = paths } }
    {
        Dimension {
            name,
            column,
            levels,
            paths,
            members,
        }
    }

    /// The name.
    pub fn name(&self) -> &[u8]
        ensures name { result.now ≡ self.now.name }
        ensures rules { IsDimension self.now }
    {
        self.name.as_slice()
    }

    /// The column of the fact file that names the leaves.
    pub fn column(&self) -> &[u8]
        ensures column { result.now ≡ self.now.column }
        ensures rules { IsDimension self.now }
    {
        self.column.as_slice()
    }

    /// The names of the levels, the finest first.
    pub fn levels(&self) -> &[Text]
        ensures levels { result.now ≡ self.now.levels }
        ensures rules { IsDimension self.now }
    {
        self.levels.as_slice()
    }

    /// For each leaf, the names of its ancestors from itself upwards.
    pub fn paths(&self) -> &[Texts]
        ensures paths { result.now ≡ self.now.paths }
        ensures rules { IsDimension self.now }
    {
        self.paths.as_slice()
    }

    /// The members of a named level.
    pub fn members(&self, level: usize) -> &NumberedNames
        requires { level < length self.now.levels }
        ensures members { result.now ≡ names_at (plain self.now) level }
        ensures rules { IsDimension self.now }
    {
        &self.members.as_slice()[level]
    }

    /// The number at a level of a leaf's ancestor; `all` has the one member 0. Takes constant time.
    pub fn up(&self, level: u32, leaf: u32) -> u32
        requires level { level ≤ length self.now.levels }
        requires leaf { leaf < length self.now.paths }
        ensures { result ≡ up (plain self.now) level leaf }
    {
        if (level as usize) < self.levels.len() {
            self.members(level as usize).number(leaf as usize)
        } else {
            0
        }
    }
}

/// A measure: what is summed.
#[derive(Drop)]
pub struct Measure {
    name: Text,
    column: Text,
    decimals: u32,
}

impl Model for Measure {
    ghost use Rattle.cube_model.specs.Dims.{NamedMeasure, IsMeasure};

    ghost Value = { NamedMeasure };

    ghost view = { λ m. record { name = m.name; column = m.column; decimals = m.decimals } };

    ghost invariant = { λ m. IsMeasure (record { name = m.name; column = m.column; decimals = m.decimals }) };
}

impl Measure {
    /// A measure of parts that keep the rules.
    pub fn from_parts(name: Text, column: Text, decimals: u32) -> Self
        requires { IsMeasure (record { name = name; column = column; decimals = decimals }) }
        ensures { result ≡ record { name = name; column = column; decimals = decimals } }
    {
        Measure {
            name,
            column,
            decimals,
        }
    }

    /// The name.
    pub fn name(&self) -> &[u8]
        ensures name { result.now ≡ self.now.name }
        ensures rules { IsMeasure self.now }
    {
        self.name.as_slice()
    }

    /// The column of the fact file with the values.
    pub fn column(&self) -> &[u8]
        ensures column { result.now ≡ self.now.column }
        ensures rules { IsMeasure self.now }
    {
        self.column.as_slice()
    }

    /// How many decimals a value has, at most 6: it is counted in units of that many decimals.
    pub fn decimals(&self) -> u32
        ensures decimals { result ≡ self.now.decimals }
        ensures rules { IsMeasure self.now }
    {
        self.decimals
    }
}

/// What a dimension file says: the dimensions and the measures of a cube.
#[derive(Drop)]
pub struct Dims {
    dimensions: Items<Dimension>,
    measures: Items<Measure>,
}

impl Model for Dims {
    ghost use Rattle.cube_model.specs.Dims as said;
    ghost use Rattle.cube_model.specs.Dims.{IsDims};

    ghost Value = { said.Dims };

    ghost view = { λ s. record { dimensions = s.dimensions; measures = s.measures } };

    ghost invariant = { λ s. IsDims (record { dimensions = s.dimensions; measures = s.measures }) };
}

impl Dims {
    /// Dimensions and measures that keep the rules together.
    pub fn from_parts(dimensions: Items<Dimension>, measures: Items<Measure>) -> Self
        requires { IsDims (record { dimensions = dimensions; measures = measures }) }
        ensures { result ≡ record { dimensions = dimensions; measures = measures } }
    {
        Dims {
            dimensions,
            measures,
        }
    }

    /// The dimensions, in the order of the file.
    pub fn dimensions(&self) -> &[Dimension]
        ensures dimensions { result.now ≡ self.now.dimensions }
        ensures rules { IsDims self.now }
    {
        self.dimensions.as_slice()
    }

    /// The measures, in the order of the file.
    pub fn measures(&self) -> &[Measure]
        ensures measures { result.now ≡ self.now.measures }
        ensures rules { IsDims self.now }
    {
        self.measures.as_slice()
    }

    /// The dimension with a number, counted from 0.
    pub fn dimension(&self, number: u32) -> &Dimension
        requires { number < length self.now.dimensions }
        ensures dimension { result.now ≡ dimension_at self.now number }
        ensures rules { IsDims self.now }
    {
        &self.dimensions.as_slice()[number as usize]
    }

    /// The measure with a number, counted from 0.
    pub fn measure(&self, number: u32) -> &Measure
        requires { number < length self.now.measures }
        ensures measure { result.now ≡ measure_at self.now number }
        ensures rules { IsDims self.now }
    {
        &self.measures.as_slice()[number as usize]
    }
}
