// Components of places, as a forest whose trees are merged by rank and whose changes can be undone.
ghost use Rattle.std.specs.Prelude.{◌≡◌, ◌≢◌, ◌-◌, ◌^◌, ◌<◌, ◌==◌, ◌||◌, ◌+ℤ◌, ℤ, pos, true, [], List, length, map, find, IfOk};
ghost use Rattle.cube_model.specs.Cubes.{count_from};
ghost use Rattle.cube_model.specs.LinkLaws.{entry, Suits, IsOfPlaces};
ghost use Rattle.std.specs.List.{All};
ghost use Rattle.cube_colour.specs.Forests.{alone, node_at, IsForest, HasRoom, IsChange, IsEffect, changed, restored, Labels, Holds, is_fixed, IsLabelled, AreGuarded, Does, fixes_guarded, relabelled, sign_beside, turned};

use cube_model::{Link, NoMemory};
use std::alloc::Global;
use std::marker::Model;

/// A place in a tree.
#[derive(Clone, Copy, Drop)]
pub struct Node {
    /// The place above, or the place itself at a root.
    pub parent: u32,
    /// At least the height of the tree below. It is small, since a tree of a higher rank has twice
    /// as many places.
    pub rank: u8,
    /// Whether the entry here is the opposite of the entry at the parent. A root that is its own
    /// opposite is 0: its whole component is fixed.
    pub opposite: bool,
    /// At a root, whether a place of the component is guarded.
    pub guarded: bool,
}

/// Where the way up from a place ends.
#[derive(Clone, Copy)]
pub struct End {
    pub root: u32,
    /// Whether the place has the opposite sign of the root.
    pub opposite: bool,
}

/// What a link that does not follow does to components.
#[derive(Clone, Copy)]
pub enum Change {
    /// Fixes the component of this root.
    Fix(u32),
    /// Puts the first root below the second, perhaps with the opposite sign.
    Join(u32, u32, bool),
}

/// What a link does to components.
#[derive(Clone, Copy)]
pub enum Effect {
    Follows,
    Changes(Change),
}

/// Two nodes as they were before a change.
#[derive(Clone, Copy, Drop)]
pub struct Saved {
    pub first: u32,
    pub first_node: Node,
    pub second: u32,
    pub second_node: Node,
}

/// Trees of places.
#[derive(Drop)]
pub struct Forest {
    nodes: Vec<Node>,
}

impl Model for Forest {
    ghost use Rattle.std.specs.Prelude.{List};
    ghost use Rattle.cube_colour.specs.declared.forest.Node.{Node};

    ghost Value = { List Node };

    ghost view = { λ f. f.nodes.items };
}

/// Each place by itself, none guarded.
fn lone_nodes(alloc: Global, places: u32) -> Result<Vec<Node>, NoMemory>
    ensures { IfOk result (λ nodes. nodes.items ≡ map (alone []) (count_from 0 places)) }
{
    let mut nodes = Vec::new(alloc);
    'places: for place in 0..places {
        nodes.push(Node {
            parent: place,
            opposite: false,
            rank: 0,
            guarded: false,
        })?;
    }
    Ok(nodes)
}

/// Marks the guarded ones of places that stand by themselves.
fn mark(nodes: &mut [Node], guarded: &[u32])
    requires nodes { nodes.old ≡ map (alone []) (count_from 0 (length nodes.old)) }
    requires guarded { All (λ place. place < length nodes.old) guarded.now }
    ensures { nodes.new ≡ map (alone guarded.now) (count_from 0 (length nodes.old)) }
{
    'guards: for place in guarded {
        nodes[*place as usize].guarded = true;
    }
}

impl Forest {
    /// Each place by itself.
    pub fn new(alloc: Global, places: u32, guarded: &[u32]) -> Result<Self, NoMemory>
        requires { All (λ place. place < places) guarded.now }
        ensures { IfOk result (λ forest. forest ≡ map (alone guarded.now) (count_from 0 places)) }
    {
        let mut nodes = lone_nodes(alloc, places)?;
        mark(&mut nodes, guarded);
        Ok(Forest { nodes })
    }

    /// The way up from a place. Takes a logarithm of the number of places.
    pub fn find(&self, place: u32) -> End
        requires forest { IsForest self.now }
        requires place { place < length self.now }
        ensures below { result.root < length self.now }
        ensures root { (node_at self.now result.root).parent ≡ result.root }
        ensures labels { (l : Labels) → IsLabelled self.now l → (l.root place ≡ result.root) × (l.opposite place ≡ result.opposite) }
    {
        let nodes = self.nodes.as_slice();
        let mut root = place;
        let mut opposite = false;
        'up: while nodes[root as usize].parent != root {
            opposite ^= nodes[root as usize].opposite;
            root = nodes[root as usize].parent;
        }
        End { root, opposite }
    }

    /// Whether the component of a place is fixed at 0.
    pub fn is_fixed(&self, place: u32) -> bool
        requires forest { IsForest self.now }
        requires place { place < length self.now }
        ensures { (l : Labels) → IsLabelled self.now l → result ≡ is_fixed l place }
    {
        let root = self.find(place).root;
        self.nodes[root as usize].opposite
    }

    /// What a root that has to be 0 does.
    fn fixing(&self, root: u32) -> Effect
        requires below { root < length self.now }
        requires root { (node_at self.now root).parent ≡ root }
        ensures fits { IsEffect self.now result }
        ensures does { (l : Labels) → IsLabelled self.now l → Does (length self.now) l (λ xs. entry xs root ≡ pos 0) result }
    {
        if self.nodes[root as usize].opposite {
            Effect::Follows
        } else {
            Effect::Changes(Change::Fix(root))
        }
    }

    /// What two roots do that have to be equal, or opposite.
    fn joining(&self, one: u32, other: u32, opposite: bool) -> Effect
        requires one_below { one < length self.now }
        requires other_below { other < length self.now }
        requires one { (node_at self.now one).parent ≡ one }
        requires other { (node_at self.now other).parent ≡ other }
        requires apart { one ≢ other }
        ensures fits { IsEffect self.now result }
        ensures does { (l : Labels) → IsLabelled self.now l → Does (length self.now) l (λ xs. entry xs one ≡ turned opposite (entry xs other)) result }
    {
        let first = self.nodes[one as usize];
        let second = self.nodes[other as usize];
        if first.opposite && second.opposite {
            Effect::Follows
        } else if first.rank <= second.rank {
            Effect::Changes(Change::Join(one, other, opposite))
        } else {
            Effect::Changes(Change::Join(other, one, opposite))
        }
    }

    /// What two places do that have to be opposite, by the ends of the ways up from them.
    fn tying(&self, one: End, other: End) -> Effect
        requires one_below { one.root < length self.now }
        requires other_below { other.root < length self.now }
        requires one { (node_at self.now one.root).parent ≡ one.root }
        requires other { (node_at self.now other.root).parent ≡ other.root }
        ensures fits { IsEffect self.now result }
        ensures does { (l : Labels) → IsLabelled self.now l → Does (length self.now) l (λ xs. turned one.opposite (entry xs one.root) +ℤ turned other.opposite (entry xs other.root) ≡ pos 0) result }
    {
        if one.root != other.root {
            self.joining(one.root, other.root, one.opposite == other.opposite)
        } else if one.opposite == other.opposite {
            self.fixing(one.root)
        } else {
            Effect::Follows
        }
    }

    /// Whether the nodes above those of two places tell that the places are opposite: they have one
    /// parent. Where it is not so, nothing is told.
    fn meet_above(&self, one: u32, other: u32) -> bool
        requires forest { IsForest self.now }
        requires one { one < length self.now }
        requires other { other < length self.now }
        ensures { (l : Labels) → IsLabelled self.now l → (xs : List ℤ) → Holds (length self.now) l xs → result ≡ true → entry xs one +ℤ entry xs other ≡ pos 0 }
    {
        let first = self.nodes[one as usize];
        let second = self.nodes[other as usize];
        let upper = self.nodes[first.parent as usize];
        let beside = self.nodes[second.parent as usize];
        upper.parent == beside.parent
            && (first.opposite != upper.opposite) != (second.opposite != beside.opposite)
    }

    /// Whether two nodes, and those above them, tell that their places are opposite: one is the
    /// parent of the other, or they have one parent, or their parents have. Where it is not so,
    /// nothing is told.
    fn are_opposite(&self, one: u32, other: u32) -> bool
        requires forest { IsForest self.now }
        requires one { one < length self.now }
        requires other { other < length self.now }
        ensures { (l : Labels) → IsLabelled self.now l → (xs : List ℤ) → Holds (length self.now) l xs → result ≡ true → entry xs one +ℤ entry xs other ≡ pos 0 }
    {
        let first = self.nodes[one as usize];
        let second = self.nodes[other as usize];
        if first.parent == second.parent {
            first.opposite != second.opposite
        } else if first.parent == other {
            first.opposite
        } else if second.parent == one {
            second.opposite
        } else {
            self.meet_above(one, other)
        }
    }

    /// Whether two nodes and those above them tell that a link follows. Most links that follow are
    /// told so, with no way up to the roots. Where it is not so, nothing is told.
    pub fn tells(&self, link: Link) -> bool
        requires forest { IsForest self.now }
        requires link { IsOfPlaces (length self.now) link }
        ensures { (l : Labels) → IsLabelled self.now l → (xs : List ℤ) → Holds (length self.now) l xs → result ≡ true → Suits xs link }
    {
        match link {
            Link::Pair(one, other) => self.are_opposite(one, other),
            Link::Single(_) => false,
        }
    }

    /// What a link does to the components.
    pub fn effect(&self, link: Link) -> Effect
        requires forest { IsForest self.now }
        requires link { IsOfPlaces (length self.now) link }
        ensures fits { IsEffect self.now result }
        ensures does { (l : Labels) → IsLabelled self.now l → Does (length self.now) l (λ xs. Suits xs link) result }
    {
        match link {
            Link::Pair(one, other) => self.tying(self.find(one), self.find(other)),
            Link::Single(place) => self.fixing(self.find(place).root),
        }
    }

    /// Two nodes, as they are.
    fn saved_at(&self, first: u32, second: u32) -> Saved
        requires first { first < length self.now }
        requires second { second < length self.now }
        ensures { result ≡ record { first = first; first_node = node_at self.now first; second = second; second_node = node_at self.now second } }
    {
        Saved {
            first,
            first_node: self.nodes[first as usize],
            second,
            second_node: self.nodes[second as usize],
        }
    }

    /// The nodes that a change will change, as they are.
    pub fn saved(&self, change: Change) -> Saved
        requires { IsChange self.now change }
        ensures back { restored result (changed change self.now) ≡ self.now }
        ensures first { result.first < length self.now }
        ensures second { result.second < length self.now }
    {
        match change {
            Change::Fix(root) => self.saved_at(root, root),
            Change::Join(child, parent, _) => self.saved_at(child, parent),
        }
    }

    /// Puts one root below another.
    fn join(&mut self, child: u32, parent: u32, opposite: bool)
        requires room { (node_at self.old child).rank < 2 ^ 8 - 1 }
        requires child { child < length self.old }
        requires parent { parent < length self.old }
        ensures { self.new ≡ changed (Change.Join child parent opposite) self.old }
    {
        let lower = self.nodes[child as usize];
        let upper = self.nodes[parent as usize];
        self.nodes[child as usize] = Node {
            parent,
            opposite,
            ..lower
        };
        self.nodes[parent as usize] = Node {
            parent: upper.parent,
            opposite: upper.opposite || lower.opposite,
            rank: upper.rank.max(lower.rank + 1),
            guarded: upper.guarded || lower.guarded,
        };
    }

    /// Makes a change.
    pub fn change(&mut self, change: Change)
        requires room { HasRoom self.old change }
        requires change { IsChange self.old change }
        ensures { self.new ≡ changed change self.old }
    {
        match change {
            Change::Fix(root) => self.nodes[root as usize].opposite = true,
            Change::Join(child, parent, opposite) => self.join(child, parent, opposite),
        }
    }

    /// Puts two nodes back.
    pub fn restore(&mut self, saved: Saved)
        requires first { saved.first < length self.old }
        requires second { saved.second < length self.old }
        ensures { self.new ≡ restored saved self.old }
    {
        self.nodes[saved.second as usize] = saved.second_node;
        self.nodes[saved.first as usize] = saved.first_node;
    }

    /// The first of some places that lies in the component of one root or the other.
    fn first_within(&self, places: &[u32], one: u32, other: u32) -> Option<u32>
        requires forest { IsForest self.now }
        requires places { All (λ place. place < length self.now) places.now }
        ensures { (l : Labels) → IsLabelled self.now l → result ≡ find (λ place. l.root place == one || l.root place == other) places.now }
    {
        'places: for place in places {
            let root = self.find(*place).root;
            if root == one || root == other {
                return Some(*place);
            }
        }
        None
    }

    /// Whether a change fixes a component with a guarded place.
    fn fixes_guarded(&self, change: Change) -> bool
        requires { IsChange self.now change }
        ensures { (l : Labels) → IsLabelled self.now l → result ≡ fixes_guarded change l }
    {
        match change {
            Change::Fix(root) => self.nodes[root as usize].guarded,
            Change::Join(child, parent, _) => {
                let child = self.nodes[child as usize];
                let parent = self.nodes[parent as usize];
                (child.opposite || parent.opposite) && (child.guarded || parent.guarded)
            }
        }
    }

    /// The first of the guarded places that a change would fix.
    pub fn first_fixed(&self, guarded: &[u32], change: Change) -> Option<u32>
        requires forest { IsForest self.now }
        requires guarded { All (λ place. place < length self.now) guarded.now }
        requires change { IsChange self.now change }
        ensures { (l : Labels) → IsLabelled self.now l → AreGuarded guarded.now l → result ≡ find (is_fixed (relabelled change l)) guarded.now }
    {
        if !self.fixes_guarded(change) {
            return None;
        }
        match change {
            Change::Fix(root) => self.first_within(guarded, root, root),
            Change::Join(child, parent, _) => self.first_within(guarded, child, parent),
        }
    }

    /// The sign of a place beside one whose way up has this end.
    pub fn sign_beside(&self, from: End, place: u32) -> i8
        requires forest { IsForest self.now }
        requires place { place < length self.now }
        ensures { (l : Labels) → IsLabelled self.now l → result ≡ sign_beside l from.root from.opposite place }
    {
        let end = self.find(place);
        if end.root != from.root {
            0
        } else if end.opposite == from.opposite {
            1
        } else {
            -1
        }
    }
}
