//! The nodes and arcs of a circuit.

ghost use Rattle.std.specs.Prelude.{◌≡◌, ◌<◌, min, length, slice_index};
ghost use Rattle.cps_p_circuit.specs.Graphs.{IsNumbering, number};

/// Arcs between nodes. A node's place stands for its number.
#[derive(Drop)]
pub struct Graph {
    /// The nodes' numbers, all different.
    pub nodes: Vec<i32>,
    /// The place of each arc's tail.
    pub from: Vec<usize>,
    /// The place of each arc's head.
    pub to: Vec<usize>,
    ghost numbered: { IsNumbering nodes.items from.items to.items },
}

impl Graph {
    /// How many arcs there are.
    pub fn arcs(&self) -> usize
        ensures { result ≡ min (length self.now.from.items) (length self.now.to.items) }
    {
        self.from.len().min(self.to.len())
    }

    /// The place of an arc's tail.
    pub fn tail(&self, k: usize) -> usize
        requires { k < length self.now.from.items }
        ensures is { result ≡ slice_index self.now.from.items k }
        ensures within { result < length self.now.nodes.items }
    {
        self.from[k]
    }

    /// The place of an arc's head.
    pub fn head(&self, k: usize) -> usize
        requires { k < length self.now.to.items }
        ensures is { result ≡ slice_index self.now.to.items k }
        ensures within { result < length self.now.nodes.items }
    {
        self.to[k]
    }

    /// The number of the node at a place.
    pub fn number(&self, place: usize) -> i32
        requires { place < length self.now.nodes.items }
        ensures { result ≡ number self.now.nodes.items place }
    {
        self.nodes[place]
    }
}
