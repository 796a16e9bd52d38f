// A colouring: the links kept, with the components that they make.
ghost use Rattle.std.specs.Prelude.{◌≡◌, ◌-◌, ◌<◌, ◌≤◌, ◌^◌, [], true, length, map, take, slice_index_or, IfOk, OnErr};
ghost use Rattle.std.specs.List.{All};
ghost use Rattle.cube_model.specs.Cubes.{count_from};
ghost use Rattle.cube_model.specs.LinkLaws.{AreOfPlaces, IsOfPlaces, ends};
ghost use Rattle.cube_model.specs.Links as model;
ghost use Rattle.cube_model.specs.Twins.{by_walks};
ghost use Rattle.cube_colour.specs.Colourings.{IsColouring};
ghost use Rattle.cube_colour.specs.Outcomes.{Adds, Grows, IsGrown};

use crate::forest::{Effect, Forest};
use crate::step::Step;
use cube_model::{Link, LinkList, NoMemory, Places, Signs};
use std::alloc::Global;
use std::marker::Model;

/// What comes of adding links.
#[derive(Clone, Copy, Debug, PartialEq, Eq)]
pub enum Added {
    /// They leave each guarded place free, and are added.
    Fits,
    /// Up to the link with this number, counted from 1, they fix this guarded place, the first one
    /// that they fix. None is added.
    Stops { index: u32, place: u32 },
}

/// Places, some of them guarded, and the links kept: those that do not follow from the links kept
/// before them.
#[derive(Drop)]
pub struct Colouring {
    places: u32,
    guarded: Places,
    steps: Vec<Step>,
    forest: Forest,
}

impl Model for Colouring {
    ghost use Rattle.cube_colour.specs.Colourings as said;
    ghost use Rattle.cube_colour.specs.Steps.{links_of, Stands};

    ghost Value = { said.Colouring };

    ghost view = { λ c. record { places = c.places; guarded = c.guarded; kept = links_of c.steps.items } };

    ghost invariant = { λ c. Stands c.places c.guarded c.steps.items c.forest };
}

impl Colouring {
    /// A colouring with no link.
    pub fn new(alloc: Global, places: u32, guarded: &Places) -> Result<Self, NoMemory>
        requires { All (λ place. place < places) guarded.now }
        ensures { IfOk result (λ made. made ≡ record { places = places; guarded = guarded.now; kept = [] }) }
    {
        let forest = Forest::new(alloc, places, guarded.as_slice())?;
        let guarded = Places::from_vec(guarded.as_slice().to_vec(alloc)?);
        Ok(Colouring {
            places,
            guarded,
            steps: Vec::new(alloc),
            forest,
        })
    }

    /// How many links are kept: what to go back to.
    pub fn mark(&self) -> u64
        ensures mark { result ≡ length self.now.kept }
        ensures few { result ≤ self.now.places }
        ensures rules { IsColouring self.now }
    {
        self.steps.len() as u64
    }

    /// A kept link, counted from 0.
    pub fn kept(&self, number: u64) -> Link
        requires { number < length self.now.kept }
        ensures { result ≡ slice_index_or self.now.kept number result }
    {
        self.steps[number as usize].link
    }

    /// Whether a place is free: some list that suits the links kept has +1 at it.
    pub fn is_free(&self, place: u32) -> bool
        requires { place < self.now.places }
        ensures { result ≡ model.is_free self.now.places self.now.kept place }
    {
        !self.forest.is_fixed(place)
    }

    /// Takes back the link that was kept last.
    fn pop(&mut self)
        requires { 0 < length self.old.kept }
        ensures places { self.new.places ≡ self.old.places }
        ensures guarded { self.new.guarded ≡ self.old.guarded }
        ensures kept { self.new.kept ≡ take (length self.old.kept - 1) self.old.kept }
    {
        if let Some(step) = self.steps.pop() {
            self.forest.restore(step.saved);
        }
    }

    /// Takes back the links behind the first so many. No memory is needed.
    pub fn back_to(&mut self, mark: u64)
        requires { mark ≤ length self.old.kept }
        ensures places { self.new.places ≡ self.old.places }
        ensures guarded { self.new.guarded ≡ self.old.guarded }
        ensures kept { self.new.kept ≡ take mark self.old.kept }
    {
        'steps: while self.mark() > mark {
            self.pop();
        }
    }

    /// Adds a link, unless it follows, by the ways up from its places. Where it would fix guarded
    /// places, it is not added, and the answer is the first of these.
    #[inline(never)]
    fn add(&mut self, link: Link) -> Result<Option<u32>, NoMemory>
        requires { IsOfPlaces self.old.places link }
        ensures grows { IfOk result (Grows self.old self.new link) }
        ensures err { OnErr result (self.new ≡ self.old) }
    {
        let change = match self.forest.effect(link) {
            Effect::Follows => return Ok(None),
            Effect::Changes(change) => change,
        };
        if let Some(place) = self.forest.first_fixed(self.guarded.as_slice(), change) {
            return Ok(Some(place));
        }
        let saved = self.forest.saved(change);
        self.steps.push(Step { link, saved })?;
        self.forest.change(change);
        Ok(None)
    }

    /// Whether a look at few nodes tells that a link follows, and so does not change a colouring.
    /// Where it is not so, nothing is told.
    #[inline(always)]
    fn passes(&self, link: Link) -> bool
        requires { IsOfPlaces self.now.places link }
        ensures { result ≡ true → IsGrown self.now self.now link }
    {
        self.forest.tells(link)
    }

    /// Adds links, all or none of them. Takes a logarithm of the number of places for each link,
    /// whatever is kept, and looks through the guarded places once where it stops. Of a long journal
    /// most links follow, and most of these are passed over after a look at few nodes.
    pub fn try_add(&mut self, _alloc: Global, links: &LinkList) -> Result<Added, NoMemory>
        requires of_places { AreOfPlaces self.old.places links.now }
        requires few { length links.now < 2 ^ 32 }
        ensures adds { IfOk result (Adds self.old self.new links.now) }
        ensures err { OnErr result (self.new ≡ self.old) }
    {
        let mark = self.mark();
        'links: for (number, link) in links.as_slice().iter().enumerate() {
            if self.passes(*link) {
                continue;
            }
            match self.add(*link) {
                Ok(None) => {}
                Ok(Some(place)) => {
                    self.back_to(mark);
                    return Ok(Added::Stops {
                        index: number as u32 + 1,
                        place,
                    });
                }
                Err(error) => {
                    self.back_to(mark);
                    return Err(error);
                }
            }
        }
        Ok(Added::Fits)
    }

    /// The signs of the places beside a free one: +1 where walks of evenly many pairs lead from it,
    /// -1 where walks of oddly many lead, and 0 elsewhere.
    pub fn signs_from(&self, alloc: Global, place: u32) -> Result<Signs, NoMemory>
        requires place { place < self.now.places }
        requires free { model.is_free self.now.places self.now.kept place ≡ true }
        ensures { IfOk result (λ signs. signs ≡ map (by_walks (ends self.now.places self.now.kept place)) (count_from 0 self.now.places)) }
    {
        let from = self.forest.find(place);
        let mut signs = Signs::new(alloc);
        'places: for at in 0..self.places {
            signs.push(self.forest.sign_beside(from, at))?;
        }
        Ok(signs)
    }
}
