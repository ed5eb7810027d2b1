ghost use Rattle.std.specs.Prelude.{◌≡◌, ◌↔◌, ℕ, ◌<◌, ◌≤◌, [], ◌∷◌, length, All, Contains, IsTrue, IfSome, IfOk, OnOk, slice_get};
ghost use Rattle.flatten_rules.specs.Graph.{IsGraph, Reaches};
ghost use Rattle.flatten_rules.specs.Reach.{Adds};

use emh_base::{List, NoMemory};
use std::alloc::Global;
use std::marker::Model;

/// Whether a walk of edges leads from a node back to it. The nodes that it reaches are followed breadth first.
pub(crate) fn returns(alloc: Global, graph: &[List<usize>], node: usize) -> Result<bool, NoMemory>
    requires graph { IsGraph graph.now }
    requires node { node < length graph.now }
    ensures { IfOk result (λ returns. IsTrue returns ↔ Reaches graph.now node node) }
{
    let mut reached = Reached::new(alloc, graph.len())?;
    reached.add_all(graph[node].as_slice())?;
    for at in 0..graph.len() {
        match reached.get(at) {
            Some(place) => reached.add_all(graph[place].as_slice())?,
            None => break,
        }
    }
    Ok(reached.has(node))
}

/// The nodes of a graph that were reached, in the order in which they were.
#[derive(Drop)]
struct Reached {
    order: List<usize>,
    /// Whether each node was reached.
    flags: Vec<bool>,
}

impl Model for Reached {
    ghost use Rattle.std.specs.Prelude.{List, ℕ, length};
    ghost use Rattle.flatten_rules.specs.Reach.{AreMarked};

    ghost Value = { List ℕ × ℕ };

    ghost view = { λ reached. (reached.order, length reached.flags.items) };

    ghost invariant = { λ reached. AreMarked reached.order reached.flags.items };
}

impl Reached {
    /// None yet, of a graph of that many nodes.
    fn new(alloc: Global, nodes: usize) -> Result<Reached, NoMemory>
        ensures { IfOk result (λ made. made ≡ ([], nodes)) }
    {
        Ok(Reached {
            order: List::new(alloc),
            flags: vec![in alloc; false; nodes]?,
        })
    }

    /// The node that was reached at that place in the order.
    fn get(&self, at: usize) -> Option<usize>
        ensures place { result ≡ slice_get self.now.0 at }
        ensures node { IfSome result (λ node. node < self.now.1) }
    {
        self.order.get(at).copied()
    }

    fn has(&self, node: usize) -> bool
        requires { node < self.now.1 }
        ensures { IsTrue result ↔ Contains self.now.0 node }
    {
        self.flags[node]
    }

    /// Puts those of the nodes last that weren't reached yet.
    fn add_all(&mut self, nodes: &[usize]) -> Result<(), NoMemory>
        requires { All (λ b. b < self.old.1) nodes.now }
        ensures nodes { OnOk result (self.new.1 ≡ self.old.1) }
        ensures order { OnOk result (Adds self.old.0 nodes.now self.new.0) }
    {
        for node in nodes {
            self.add(*node)?;
        }
        Ok(())
    }

    /// Puts the node last if it wasn't reached yet.
    fn add(&mut self, node: usize) -> Result<(), NoMemory>
        requires { node < self.old.1 }
        ensures nodes { OnOk result (self.new.1 ≡ self.old.1) }
        ensures order { OnOk result (Adds self.old.0 (node ∷ []) self.new.0) }
    {
        if self.has(node) {
            return Ok(());
        }
        self.order.push(node)?;
        self.flags[node] = true;
        Ok(())
    }
}
