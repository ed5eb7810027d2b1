ghost use Rattle.std.specs.Prelude.{◌≡◌, ◌<◌, ◌≤◌, length, All, IsTrue, IfOk, vec_len};
ghost use Rattle.flatten_rules.specs.Graph.{NeverRises, Falls, rank_of};

use emh_base::{List, NoMemory};
use std::alloc::{AllocError, Global};

/// Ranks of the nodes of a graph such that no edge leads to a higher one. Each edge of a node that is on no cycle leads
/// to a lower one, but the contract doesn't promise that.
pub(crate) fn ranks(alloc: Global, graph: &[List<usize>]) -> Result<Vec<usize>, NoMemory>
    ensures { IfOk result (λ ranks. NeverRises ranks.items graph.now) }
{
    let ranks = component_ranks(alloc, graph)?;
    if never_rises(&ranks, graph) {
        Ok(ranks)
    } else {
        Ok(Vec::new(alloc))
    }
}

/// Whether each edge from a node leads to one of a lower rank.
pub(crate) fn falls(ranks: &[usize], graph: &[List<usize>], node: usize) -> bool
    requires { node < length graph.now }
    ensures { IsTrue result → Falls ranks.now graph.now node }
{
    let rank = rank_at(ranks, node);
    graph[node]
        .as_slice()
        .iter()
        .all(|to| rank_at(ranks, *to) < rank)
}

/// The rank of a node, 0 where it has none.
fn rank_at(ranks: &[usize], node: usize) -> usize
    ensures { result ≡ rank_of ranks.now node }
{
    ranks.get(node).copied().unwrap_or(0)
}

/// Whether no edge leads to a node of a higher rank.
fn never_rises(ranks: &[usize], graph: &[List<usize>]) -> bool
    ensures { IsTrue result → NeverRises ranks.now graph.now }
{
    for node in 0..graph.len() {
        if !are_at_most(ranks, graph[node].as_slice(), rank_at(ranks, node)) {
            return false;
        }
    }
    true
}

fn are_at_most(ranks: &[usize], nodes: &[usize], rank: usize) -> bool
    ensures { IsTrue result → All (λ b. rank_of ranks.now b ≤ rank) nodes.now }
{
    nodes.iter().all(|node| rank_at(ranks, *node) <= rank)
}

/// Ranks by Tarjan's algorithm: the strongly connected components get rising ranks as they close.
fn component_ranks(alloc: Global, graph: &[List<usize>]) -> Result<Vec<usize>, AllocError> {
    let mut search = Search::new(alloc, graph.len())?;
    for root in 0..graph.len() {
        if !search.is_met(root) {
            search.enter(root)?;
            search.walk(graph)?;
        }
    }
    Ok(search.ranks)
}

/// A depth-first walk through a graph, with no recursion.
#[derive(Drop)]
struct Search {
    /// When each node was met, counted from 1; 0 where it wasn't yet.
    met: Vec<usize>,
    /// The earliest node of its component, by when it was met, that each node is known to lead to.
    low: Vec<usize>,
    /// The rank of each node, counted from 1; 0 where its component isn't closed.
    ranks: Vec<usize>,
    /// The nodes of components that aren't closed.
    open: Vec<usize>,
    /// The nodes on the way down to the present one, each with how many of its edges were taken.
    way: Vec<(usize, usize)>,
    count: usize,
    rank: usize,
}

impl Search {
    fn new(alloc: Global, nodes: usize) -> Result<Search, AllocError> {
        Ok(Search {
            met: vec![in alloc; 0; nodes]?,
            low: vec![in alloc; 0; nodes]?,
            ranks: vec![in alloc; 0; nodes]?,
            open: Vec::new(alloc),
            way: Vec::new(alloc),
            count: 0,
            rank: 0,
        })
    }

    fn is_met(&self, node: usize) -> bool {
        rank_at(self.met.as_slice(), node) != 0
    }

    fn is_open(&self, node: usize) -> bool {
        self.is_met(node) && rank_at(self.ranks.as_slice(), node) == 0
    }

    /// Follows the edges from the last node on the way until the way is empty.
    fn walk(&mut self, graph: &[List<usize>]) -> Result<(), AllocError> {
        // each turn takes an edge or leaves a node, so they are far fewer
        for _ in 0..u64::MAX {
            let Some((node, taken)) = self.way.pop() else {
                return Ok(());
            };
            match edge_at(graph, node, taken) {
                Some(to) => {
                    self.way.push((node, taken.saturating_add(1)))?;
                    self.follow(node, to)?;
                }
                None => self.leave(node),
            }
        }
        Ok(())
    }

    fn enter(&mut self, node: usize) -> Result<(), AllocError> {
        self.count = self.count.saturating_add(1);
        let count = self.count;
        put(&mut self.met, node, count);
        put(&mut self.low, node, count);
        self.open.push(node)?;
        self.way.push((node, 0))?;
        Ok(())
    }

    /// Takes an edge from a node: into a node that wasn't met, or back to one whose component is open.
    fn follow(&mut self, node: usize, to: usize) -> Result<(), AllocError> {
        if !self.is_met(to) {
            return self.enter(to);
        }
        if self.is_open(to) {
            let earlier = rank_at(self.met.as_slice(), to);
            self.lower(node, earlier);
        }
        Ok(())
    }

    /// Leaves a node whose edges were all taken. Its component closes where none of them led further back.
    fn leave(&mut self, node: usize) {
        let low = rank_at(self.low.as_slice(), node);
        if low == rank_at(self.met.as_slice(), node) {
            self.close(node);
        }
        let above = self.way.last().copied();
        if let Some((above, _)) = above {
            self.lower(above, low);
        }
    }

    fn lower(&mut self, node: usize, low: usize) {
        let least = low.min(rank_at(self.low.as_slice(), node));
        put(&mut self.low, node, least);
    }

    /// Closes the component of a node: the open nodes from it on.
    fn close(&mut self, node: usize) {
        self.rank = self.rank.saturating_add(1);
        let rank = self.rank;
        while let Some(last) = self.open.pop() {
            put(&mut self.ranks, last, rank);
            if last == node {
                break;
            }
        }
    }
}

fn put(numbers: &mut [usize], node: usize, number: usize) {
    if let Some(place) = numbers.get_mut(node) {
        *place = number;
    }
}

/// The node that the edge of that number leads to.
fn edge_at(graph: &[List<usize>], node: usize, number: usize) -> Option<usize> {
    graph.get(node)?.get(number).copied()
}
