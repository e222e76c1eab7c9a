//! The nodes of a record that is being unflattened.
ghost use Rattle.std.specs.Prelude.{◌≡◌, ◌<◌, ◌++◌, ◌∷◌, None, [], true, length, vec_len, OnOk, Some, slice_get};
ghost use Rattle.std.specs.Option.{unwrap_or};
ghost use Rattle.mlr_spec.specs.Pairs.{value_at, put_at, keys_of, are_distinct};
ghost use Rattle.mlr_spec.specs.Tree.{absent};
ghost use Rattle.mlr_spec.specs.Flatten.{leaf, Node as SpecNode};
ghost use Rattle.mlr_keys.specs.Keys.{Knows};
ghost use Rattle.mlr_record.specs.NodeView.{children_in, node_of};
ghost use Rattle.mlr_record.specs.Children.{IsChildOf, IsGiven};

use mlr_keys::{HasKey, KeyPlaces};
use mlr_spec::NoMemory;
use mlr_value::Value;
use std::alloc::Global;
use std::marker::Model;
use std::mem;

/// The end of a path.
#[derive(Drop)]
pub enum Leaf<'a> {
    /// The value of a field.
    Represents(&'a Value),
    /// A map without pairs, which the text `{}` represents.
    NoPairs,
    /// An array without items, which the text `[]` represents.
    NoItems,
    /// No value: where a path continues that no other path has made.
    Nothing,
}

/// A place of a record that is being unflattened: a value, or a map made by paths.
#[cycle(node)]
#[derive(Drop)]
pub enum Node<'a> {
    End(Leaf<'a>),
    Made(Nodes<'a>),
}

/// A name in a map that the paths made, and its node.
#[cycle(node)]
#[derive(Drop)]
struct Child<'a> {
    name: &'a [u8],
    node: Node<'a>,
}

/// The nodes of a map that the paths made, by name in order of insertion, no two of one name.
#[cycle(node)]
#[derive(Drop)]
pub struct Nodes<'a> {
    alloc: Global,
    children: Vec<Child<'a>>,
    places: KeyPlaces,
}

impl<'a> HasKey for Child<'a> {
    ghost key = { λ child. child.name.now };

    fn key(&self) -> &[u8] {
        self.name
    }
}

impl<'a> Model for Nodes<'a> {
    ghost use Rattle.std.specs.Prelude.{List, ℕ, ◌≡◌, true};
    ghost use Rattle.mlr_spec.specs.Flatten.{Node};
    ghost use Rattle.mlr_record.specs.Nodes.{coded_nodes, list_depth};

    ghost Value = { List (List ℕ × Node) };

    ghost coded = { coded_nodes };

    ghost use Rattle.mlr_spec.specs.Pairs.{keys_of, are_distinct};
    ghost use Rattle.mlr_keys.specs.Keys.{Knows};
    ghost use Rattle.mlr_record.specs.NodeView.{children_in};

    ghost view = { λ n. children_in n.children.items };

    ghost invariant = { λ n. (are_distinct (keys_of (children_in n.children.items)) ≡ true)
        × Knows n.places (keys_of (children_in n.children.items)) };

    ghost size = { list_depth };

    ghost use Rattle.mlr_record.specs.NodesFall.{children_fall};

    ghost size_decreases = { λ n h. children_fall n };
}

impl<'a> Nodes<'a> {
    /// No nodes. It takes no memory.
    pub fn new(alloc: Global) -> Self
        ensures { result ≡ [] }
    {
        Nodes {
            alloc,
            children: Vec::new(alloc),
            places: KeyPlaces::new(),
        }
    }

    /// How many nodes there are.
    pub fn len(&self) -> usize
        ensures length { result ≡ length self.now }
        ensures distinct { are_distinct (keys_of self.now) ≡ true }
    {
        self.children.len()
    }

    /// The name and the node at a place that there is.
    pub fn entry(&self, place: usize) -> (&'a [u8], &Node<'a>)
        requires { place < length self.now }
        ensures { slice_get self.now place ≡ Some (result.0.now, node_of result.1.now) }
    {
        let child = &self.children[place];
        (child.name, &child.node)
    }

    /// The node of this name, taken out of its place to be set there again; an absent value where there is
    /// none.
    pub fn take(&mut self, name: &[u8]) -> Node<'a>
        ensures taken { node_of result ≡ unwrap_or (value_at name.now self.old) (leaf absent) }
        ensures left { (node : SpecNode)
            → put_at name.now node self.new ≡ put_at name.now node self.old }
    {
        match place_of(&self.children, &self.places, name) {
            Some(place) => mem::replace(&mut self.children[place].node, Node::End(Leaf::Nothing)),
            None => Node::End(Leaf::Nothing),
        }
    }

    /// Gives the name this node: in its place if it is there, else last.
    pub fn put(&mut self, name: &'a [u8], node: Node<'a>) -> Result<(), NoMemory>
        ensures { OnOk result (self.new ≡ put_at name.now (node_of node.entry) self.old) }
    {
        match place_of(&self.children, &self.places, name) {
            Some(place) => {
                give_node(&mut self.children, place, node);
                Ok(())
            }
            None => self.push(name, node),
        }
    }

    /// Appends a node whose name isn't there. It makes no search.
    pub fn push(&mut self, name: &'a [u8], node: Node<'a>) -> Result<(), NoMemory>
        requires { value_at name.now self.old ≡ None }
        ensures { OnOk result (self.new ≡ self.old ++ (name.now, node_of node.entry) ∷ []) }
    {
        self.children.reserve(1)?;
        self.places.add(self.alloc, &self.children, name)?;
        self.children.push_reserved(Child { name, node });
        Ok(())
    }
}

/// Gives the child at this place the node.
fn give_node<'a>(children: &mut Vec<Child<'a>>, place: usize, node: Node<'a>)
    requires { place < vec_len children.old }
    ensures { IsGiven place node.entry children.old.items children.new.items }
{
    children[place].node = node;
}

/// The place of the child with this name.
fn place_of(children: &[Child<'_>], places: &KeyPlaces, name: &[u8]) -> Option<usize>
    requires { Knows places.now (keys_of (children_in children.now)) }
    ensures { IsChildOf name.now children.now result }
{
    places.place_of(children, name)
}
