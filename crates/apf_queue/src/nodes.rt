//! Rings of nodes that are linked both ways.
//!
//! One record holds all of a node, so that one line of the cache has it. A node that is in a ring of its
//! own is linked to itself.

ghost use Rattle.std.specs.Prelude.{◌≡◌, ◌≢◌, ℕ, ◌<◌, List, [], ◌∷◌, ◌++◌, length, slice_index, slice_set, Some, None};
ghost use Rattle.apf_queue.specs.Nodes.{NotIn, AreApart, IsRing, AreLinked, next_nodes, previous_nodes, queues_of, costs_of, no_queue, queue_stored, alone_node};

// What stands in place of a queue where a request stands in none: above each queue.
const NO_QUEUE: u32 = u32::MAX;

// A node of a ring: the place of a request, or the head of a queue. It has 16 bytes, four to a line.
#[derive(Clone, Copy)]
pub struct Node {
    // The node after it in its ring, and the node before it.
    pub next: u32,
    pub previous: u32,
    // The queue in which the request stands, or `NO_QUEUE`.
    queue: u32,
    // What the dispatch of the request is charged.
    pub cost: u32,
}

const _: () = prove!(size_of::<Node>() == 16);

impl Node {
    // The node of this number, alone and in no queue.
    pub fn alone(number: u32) -> Node
        ensures { result ≡ alone_node number }
    {
        Node {
            next: number,
            previous: number,
            queue: NO_QUEUE,
            cost: 0,
        }
    }

    // The queue in which the request stands, if any.
    pub fn queue(&self) -> Option<u32>
        ensures { result ≡ queue_stored self.now.queue }
    {
        if self.queue == NO_QUEUE {
            None
        } else {
            Some(self.queue)
        }
    }
}

// The node after this one is `next` from now on.
fn set_next(nodes: &mut [Node], node: u32, next: u32)
    requires { node < length nodes.old }
    ensures next { next_nodes nodes.new ≡ slice_set (next_nodes nodes.old) node next }
    ensures previous { previous_nodes nodes.new ≡ previous_nodes nodes.old }
    ensures queues { queues_of nodes.new ≡ queues_of nodes.old }
    ensures costs { costs_of nodes.new ≡ costs_of nodes.old }
{
    nodes[node as usize].next = next;
}

// The node before this one is `previous` from now on.
fn set_previous(nodes: &mut [Node], node: u32, previous: u32)
    requires { node < length nodes.old }
    ensures next { next_nodes nodes.new ≡ next_nodes nodes.old }
    ensures previous { previous_nodes nodes.new ≡ slice_set (previous_nodes nodes.old) node previous }
    ensures queues { queues_of nodes.new ≡ queues_of nodes.old }
    ensures costs { costs_of nodes.new ≡ costs_of nodes.old }
{
    nodes[node as usize].previous = previous;
}

// The request of the node stands in this queue, and its dispatch is charged this.
fn set_queue(nodes: &mut [Node], node: u32, queue: u32, cost: u32)
    requires node_in { node < length nodes.old }
    requires is_queue { queue < no_queue }
    ensures next { next_nodes nodes.new ≡ next_nodes nodes.old }
    ensures previous { previous_nodes nodes.new ≡ previous_nodes nodes.old }
    ensures queues { queues_of nodes.new ≡ slice_set (queues_of nodes.old) node (Some queue) }
    ensures costs { costs_of nodes.new ≡ slice_set (costs_of nodes.old) node cost }
{
    let node = &mut nodes[node as usize];
    node.queue = queue;
    node.cost = cost;
}

// The request of the node stands in no queue.
fn clear_queue(nodes: &mut [Node], node: u32)
    requires { node < length nodes.old }
    ensures next { next_nodes nodes.new ≡ next_nodes nodes.old }
    ensures previous { previous_nodes nodes.new ≡ previous_nodes nodes.old }
    ensures queues { queues_of nodes.new ≡ slice_set (queues_of nodes.old) node None }
    ensures costs { costs_of nodes.new ≡ costs_of nodes.old }
{
    nodes[node as usize].queue = NO_QUEUE;
}

// Puts `node`, which is alone, at the end of the ring of `head`: its request stands in this queue from now
// on, and its dispatch is charged this.
pub fn link(nodes: &mut [Node], head: u32, node: u32, queue: u32, cost: u32)
    requires linked { AreLinked (next_nodes nodes.old) (previous_nodes nodes.old) }
    requires head_in { head < length nodes.old }
    requires node_in { node < length nodes.old }
    requires other { node ≢ head }
    requires is_queue { queue < no_queue }
    requires alone { slice_index (next_nodes nodes.old) node ≡ node }
    ensures linked { AreLinked (next_nodes nodes.new) (previous_nodes nodes.new) }
    ensures alone { (i : ℕ) → i ≢ node → i ≢ head → slice_index (next_nodes nodes.old) i ≡ i → slice_index (next_nodes nodes.new) i ≡ i }
    ensures ring { (standing : List ℕ) → IsRing (next_nodes nodes.old) head standing → AreApart (head ∷ standing) → NotIn node (head ∷ standing)
        → IsRing (next_nodes nodes.new) head (standing ++ node ∷ []) }
    ensures others { (h : ℕ) (standing : List ℕ) → IsRing (next_nodes nodes.old) h standing → NotIn node (h ∷ standing) → NotIn head (h ∷ standing)
        → IsRing (next_nodes nodes.new) h standing }
    ensures queues { queues_of nodes.new ≡ slice_set (queues_of nodes.old) node (Some queue) }
    ensures costs { costs_of nodes.new ≡ slice_set (costs_of nodes.old) node cost }
{
    let last = nodes[head as usize].previous;
    set_next(nodes, last, node);
    set_previous(nodes, node, last);
    set_next(nodes, node, head);
    set_previous(nodes, head, node);
    set_queue(nodes, node, queue, cost);
}

// Takes `node` out of its ring, and leaves it alone and in no queue.
pub fn unlink(nodes: &mut [Node], node: u32)
    requires linked { AreLinked (next_nodes nodes.old) (previous_nodes nodes.old) }
    requires node_in { node < length nodes.old }
    ensures linked { AreLinked (next_nodes nodes.new) (previous_nodes nodes.new) }
    ensures alone { slice_index (next_nodes nodes.new) node ≡ node }
    ensures still_alone { (i : ℕ) → slice_index (next_nodes nodes.old) i ≡ i → slice_index (next_nodes nodes.new) i ≡ i }
    ensures ring { (head : ℕ) (before after : List ℕ) → IsRing (next_nodes nodes.old) head (before ++ node ∷ after)
        → AreApart (head ∷ (before ++ node ∷ after)) → head < length nodes.old → IsRing (next_nodes nodes.new) head (before ++ after) }
    ensures others { (h : ℕ) (standing : List ℕ) → IsRing (next_nodes nodes.old) h standing → NotIn node (h ∷ standing) → IsRing (next_nodes nodes.new) h standing }
    ensures queues { queues_of nodes.new ≡ slice_set (queues_of nodes.old) node None }
    ensures costs { costs_of nodes.new ≡ costs_of nodes.old }
{
    let Node { next, previous, .. } = nodes[node as usize];
    set_next(nodes, previous, next);
    set_previous(nodes, next, previous);
    set_next(nodes, node, node);
    set_previous(nodes, node, node);
    clear_queue(nodes, node);
}
