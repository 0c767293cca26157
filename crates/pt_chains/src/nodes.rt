//! A node for each client, linked to the nodes next to it in its chain.

ghost use Rattle.std.specs.Prelude.{◌≡◌, ◌≢◌, ◌+◌, ◌-◌, ◌<◌, ◌≤◌, ◌^◌, ◌==◌, Some, None, IsSome};
ghost use Rattle.std.specs.Prelude.{IfSome, IfNone, false, OnOk, []};
ghost use Rattle.std.specs.Prelude.{◌&&◌, is_some, if◌then◌else◌, ℕ};
ghost use Rattle.std.specs.Prelude.{not, nat_eq, length};
ghost use Rattle.std.specs.Map.{lookup};
ghost use Rattle.std.specs.Option.{option_map, option_and_then};
ghost use Rattle.std.specs.HashMap.{spare};
ghost use Rattle.slab.specs.Slab.{HasRoomFor};
ghost use Rattle.pt_waitq.specs.declared.waiter.Waiter.{Waiter};
ghost use Rattle.pt_chains.specs.Chains.{numbers, is_at, node_in, next_in, before_in, entry_in};
ghost use Rattle.pt_chains.specs.Chains.{node_index_of, entry_of_client, entry_at, client_of_node};
ghost use Rattle.pt_chains.specs.Chains.{AreOwn, AreNodeIndexes};

use crate::link::{Link, MAX_NODES, NodeIndex};
use crate::node_table::NodeTable;
use pt_types::{ClientId, Priority};
use pt_waitq::Waiter;
use slab::Slab;
use std::alloc::{AllocError, Allocator};

/// A client's place in a chain, if it is in one.
#[derive(Clone, Copy)]
pub(crate) struct Node {
    /// The number of the queue in which the node is, if any.
    pub(crate) object: Option<u64>,
    /// The client's waiter. While the node is in no chain, only the waiter's client counts.
    pub(crate) waiter: Waiter,
    pub(crate) next: Link,
    pub(crate) before: Link,
}

/// A waiter in its chain: its node, its queue's number, and the nodes next to it.
#[derive(Clone, Copy)]
pub(crate) struct Place {
    pub(crate) node: NodeIndex,
    pub(crate) object: u64,
    pub(crate) waiter: Waiter,
    pub(crate) before: Link,
    pub(crate) next: Link,
}

/// Sets the link from a node to the next one.
pub(crate) fn set_next<A: Allocator + Copy>(nodes: &mut Slab<Node, A>, node: NodeIndex, next: Link)
    requires { IsSome (node_in nodes.old.slots node) }
    ensures exists { (n : ℕ)
        → is_some (node_in nodes.new.slots n) ≡ is_some (node_in nodes.old.slots n) }
    ensures next { (n : ℕ)
        → next_in nodes.new.slots n ≡ (if node == n then next else next_in nodes.old.slots n) }
    ensures before { (n : ℕ) → before_in nodes.new.slots n ≡ before_in nodes.old.slots n }
    ensures entry { (n : ℕ) → entry_in nodes.new.slots n ≡ entry_in nodes.old.slots n }
    ensures client { (n : ℕ) → client_of_node nodes.new.slots n ≡ client_of_node nodes.old.slots n }
{
    nodes.get_mut(node.get()).unwrap().next = next;
}

/// Sets the link from a node to the one before it.
pub(crate) fn set_before<A: Allocator + Copy>(
    nodes: &mut Slab<Node, A>,
    node: NodeIndex,
    before: Link,
)
    requires { IsSome (node_in nodes.old.slots node) }
    ensures exists { (n : ℕ)
        → is_some (node_in nodes.new.slots n) ≡ is_some (node_in nodes.old.slots n) }
    ensures next { (n : ℕ) → next_in nodes.new.slots n ≡ next_in nodes.old.slots n }
    ensures before { (n : ℕ)
        → before_in nodes.new.slots n
        ≡ (if node == n then before else before_in nodes.old.slots n) }
    ensures entry { (n : ℕ) → entry_in nodes.new.slots n ≡ entry_in nodes.old.slots n }
    ensures client { (n : ℕ) → client_of_node nodes.new.slots n ≡ client_of_node nodes.old.slots n }
{
    nodes.get_mut(node.get()).unwrap().before = before;
}

/// Replaces a node.
pub(crate) fn set_node<A: Allocator + Copy>(nodes: &mut Slab<Node, A>, node: NodeIndex, value: Node)
    requires { IsSome (node_in nodes.old.slots node) }
    ensures exists { (n : ℕ)
        → is_some (node_in nodes.new.slots n) ≡ is_some (node_in nodes.old.slots n) }
    ensures next { (n : ℕ)
        → next_in nodes.new.slots n
        ≡ (if node == n then value.next else next_in nodes.old.slots n) }
    ensures before { (n : ℕ)
        → before_in nodes.new.slots n
        ≡ (if node == n then value.before else before_in nodes.old.slots n) }
    ensures entry { (n : ℕ)
        → entry_in nodes.new.slots n
        ≡ (if node == n then entry_at value else entry_in nodes.old.slots n) }
    ensures client { (n : ℕ)
        → client_of_node nodes.new.slots n
        ≡ (if node == n then Some value.waiter.client else client_of_node nodes.old.slots n) }
{
    *nodes.get_mut(node.get()).unwrap() = value;
}

/// Marks a node as being in no chain.
fn clear<A: Allocator + Copy>(nodes: &mut Slab<Node, A>, node: NodeIndex)
    requires { IsSome (node_in nodes.old.slots node) }
    ensures exists { (n : ℕ)
        → is_some (node_in nodes.new.slots n) ≡ is_some (node_in nodes.old.slots n) }
    ensures next { (n : ℕ)
        → next_in nodes.new.slots n ≡ (if node == n then None else next_in nodes.old.slots n) }
    ensures before { (n : ℕ)
        → before_in nodes.new.slots n ≡ (if node == n then None else before_in nodes.old.slots n) }
    ensures entry { (n : ℕ)
        → entry_in nodes.new.slots n ≡ (if node == n then None else entry_in nodes.old.slots n) }
    ensures client { (n : ℕ) → client_of_node nodes.new.slots n ≡ client_of_node nodes.old.slots n }
{
    let node = nodes.get_mut(node.get()).unwrap();
    node.object = None;
    node.next = Link::none();
    node.before = Link::none();
}

/// Returns the waiter of a node, if a node is given. The node must be in a chain.
pub(crate) fn waiter_of<A: Allocator + Copy>(
    nodes: &Slab<Node, A>,
    node: Option<NodeIndex>,
) -> Option<Waiter>
    requires { IfSome node (λ n. IsSome (entry_in nodes.now.slots n)) }
    ensures { result
        ≡ option_map (λ e. e.1) (option_and_then (λ n. entry_in nodes.now.slots n) node) }
{
    let node = nodes.get(node?.get()).unwrap();
    Some(node.waiter)
}

/// Puts a node after the last node of its chain, if the chain has one.
pub(crate) fn insert<A: Allocator + Copy>(
    nodes: &mut Slab<Node, A>,
    last: Link,
    node: NodeIndex,
    entry: (u64, Waiter),
)
    requires exists { IsSome (node_in nodes.old.slots node) }
    requires last { IfSome last (λ l. IsSome (node_in nodes.old.slots l)) }
    ensures exists { (n : ℕ)
        → is_some (node_in nodes.new.slots n) ≡ is_some (node_in nodes.old.slots n) }
    ensures next { (n : ℕ)
        → next_in nodes.new.slots n
        ≡ (if node == n
        then None
        else if is_at n last then Some node else next_in nodes.old.slots n) }
    ensures before { (n : ℕ)
        → before_in nodes.new.slots n ≡ (if node == n then last else before_in nodes.old.slots n) }
    ensures entry { (n : ℕ)
        → entry_in nodes.new.slots n
        ≡ (if node == n then Some entry else entry_in nodes.old.slots n) }
    ensures client { (n : ℕ)
        → client_of_node nodes.new.slots n
        ≡ (if node == n then Some entry.1.client else client_of_node nodes.old.slots n) }
{
    if let Some(l) = last.get() {
        set_next(nodes, l, Link::to(node));
    }
    let value = Node {
        object: Some(entry.0),
        waiter: entry.1,
        next: Link::none(),
        before: last,
    };
    set_node(nodes, node, value);
}

/// Removes a node, which is between these two, from its chain.
pub(crate) fn remove<A: Allocator + Copy>(
    nodes: &mut Slab<Node, A>,
    node: NodeIndex,
    before: Link,
    next: Link,
)
    requires exists { IsSome (node_in nodes.old.slots node) }
    requires before { IfSome before (λ n. IsSome (node_in nodes.old.slots n)) }
    requires next { IfSome next (λ n. IsSome (node_in nodes.old.slots n)) }
    ensures exists { (n : ℕ)
        → is_some (node_in nodes.new.slots n) ≡ is_some (node_in nodes.old.slots n) }
    ensures next { (n : ℕ)
        → next_in nodes.new.slots n
        ≡ (if node == n
        then None
        else if is_at n before then next else next_in nodes.old.slots n) }
    ensures before { (n : ℕ)
        → before_in nodes.new.slots n
        ≡ (if node == n
        then None
        else if is_at n next then before else before_in nodes.old.slots n) }
    ensures entry { (n : ℕ)
        → entry_in nodes.new.slots n ≡ (if node == n then None else entry_in nodes.old.slots n) }
    ensures client { (n : ℕ) → client_of_node nodes.new.slots n ≡ client_of_node nodes.old.slots n }
{
    if let Some(n) = before.get() {
        set_next(nodes, n, next);
    }
    if let Some(n) = next.get() {
        set_before(nodes, n, before);
    }
    clear(nodes, node);
}

// Returns the node whose index is the distance of the client's number above the first one, if it is
// the client's node.
fn node_by_distance<A: Allocator + Copy>(
    homes: &NodeTable<A>,
    nodes: &Slab<Node, A>,
    client: u64,
) -> Option<NodeIndex>
    ensures { IfSome result (λ n. client_of_node nodes.now.slots n ≡ Some client) }
{
    let distance = homes.distance_of(client);
    match nodes.get(distance) {
        Some(node) if node.waiter.client.0 == client && distance < MAX_NODES => {
            Some(NodeIndex::new(distance))
        }
        _ => None,
    }
}

// Returns the node of a client, looked up in the map.
#[cold]
#[inline(never)]
fn node_by_number<A: Allocator + Copy>(homes: &NodeTable<A>, client: u64) -> Option<NodeIndex>
    ensures { result ≡ node_index_of homes.now.map.entries client }
{
    homes.map.get(&client).copied()
}

// Returns the node of a client, if it has one. If the numbers of clients follow one another, a node
// is found by the distance of the number, without a look-up in the map.
fn node_of<A: Allocator + Copy>(
    homes: &NodeTable<A>,
    nodes: &Slab<Node, A>,
    client: u64,
) -> Option<NodeIndex>
    requires { AreOwn homes.now.map.entries nodes.now.slots }
    ensures { result ≡ node_index_of homes.now.map.entries client }
{
    match node_by_distance(homes, nodes, client) {
        Some(node) => Some(node),
        None => node_by_number(homes, client),
    }
}

/// Returns the index of a client's node. The client must have one.
pub(crate) fn node_index_of<A: Allocator + Copy>(
    homes: &NodeTable<A>,
    nodes: &Slab<Node, A>,
    client: u64,
) -> NodeIndex
    requires own { AreOwn homes.now.map.entries nodes.now.slots }
    requires exists { IsSome (node_index_of homes.now.map.entries client) }
    ensures { node_index_of homes.now.map.entries client ≡ Some result }
{
    node_of(homes, nodes, client).unwrap()
}

/// Returns the place at which a client waits, if it does.
pub(crate) fn place_of<A: Allocator + Copy>(
    homes: &NodeTable<A>,
    nodes: &Slab<Node, A>,
    client: u64,
) -> Option<Place>
    requires { AreNodeIndexes homes.now.map.entries nodes.now.slots }
    ensures none { IfNone result (entry_of_client homes.now.map.entries nodes.now.slots client
        ≡ None) }
    ensures home { IfSome result (λ p. node_index_of homes.now.map.entries client ≡ Some p.node) }
    ensures node { IfSome result (λ p. node_in nodes.now.slots p.node
        ≡ Some (record {
          object = Some p.object;
          waiter = p.waiter;
          next = p.next;
          before = p.before;
        })) }
{
    let index = node_of(homes, nodes, client)?;
    let node = nodes.get(index.get()).unwrap();
    Some(Place {
        node: index,
        object: node.object?,
        waiter: node.waiter,
        before: node.before,
        next: node.next,
    })
}

/// Returns the place of a node that is in a chain.
pub(crate) fn place_at<A: Allocator + Copy>(nodes: &Slab<Node, A>, index: NodeIndex) -> Place
    requires { IsSome (entry_in nodes.now.slots index) }
    ensures index { result.node ≡ index }
    ensures node { node_in nodes.now.slots index
        ≡ Some (record {
          object = Some result.object;
          waiter = result.waiter;
          next = result.next;
          before = result.before;
        }) }
{
    let node = nodes.get(index.get()).unwrap();
    Place {
        node: index,
        object: node.object.unwrap(),
        waiter: node.waiter,
        before: node.before,
        next: node.next,
    }
}

/// Makes room for one more node, unless there are too many already.
pub(crate) fn make_room<A: Allocator + Copy>(
    homes: &mut NodeTable<A>,
    nodes: &mut Slab<Node, A>,
) -> Result<(), AllocError>
    ensures homes { (d : ℕ)
        → node_index_of homes.new.map.entries d ≡ node_index_of homes.old.map.entries d }
    ensures count { length homes.new.map.entries ≡ length homes.old.map.entries }
    ensures within { OnOk result (length homes.old.map.entries + 1 < 2 ^ 32) }
    ensures nodes { nodes.new.slots ≡ nodes.old.slots }
    ensures home_room { OnOk result (0 < spare homes.new.map) }
    ensures node_room { OnOk result (HasRoomFor nodes.new 1) }
    ensures index { OnOk result (nodes.new.vacant_key < 2 ^ 32 - 1) }
{
    if homes.map.len() >= MAX_NODES || nodes.vacant_key() >= MAX_NODES {
        return Err(AllocError);
    }
    homes.map.reserve(1)?;
    nodes.reserve(1)
}

// Creates a client's node, which is in no chain.
fn idle(client: u64) -> Node
    ensures entry { entry_at result ≡ None }
    ensures client { result.waiter.client ≡ client }
{
    Node {
        object: None,
        waiter: Waiter {
            client: ClientId(client),
            place: 0,
            prio: Priority::new(1).unwrap(),
            writer: false,
            moved: 0,
        },
        next: Link::none(),
        before: Link::none(),
    }
}

/// Adds a client's node, which is in no chain, and returns its index.
pub(crate) fn admit<A: Allocator + Copy>(
    homes: &mut NodeTable<A>,
    nodes: &mut Slab<Node, A>,
    client: u64,
) -> NodeIndex
    requires new { lookup (nat_eq client) homes.old.map.entries ≡ None }
    requires home_room { 0 < spare homes.old.map }
    requires node_room { HasRoomFor nodes.old 1 }
    requires index { nodes.old.vacant_key < 2 ^ 32 - 1 }
    ensures homes { (d : ℕ)
        → node_index_of homes.new.map.entries d
        ≡ (if client == d then Some result else node_index_of homes.old.map.entries d) }
    ensures count { length homes.new.map.entries ≡ length homes.old.map.entries + 1 }
    ensures vacant { node_in nodes.old.slots result ≡ None }
    ensures entry { entry_in nodes.new.slots result ≡ None }
    ensures client { client_of_node nodes.new.slots result ≡ Some client }
    ensures others { (n : ℕ)
        → n ≢ result
        → node_in nodes.new.slots n ≡ node_in nodes.old.slots n }
{
    let node = NodeIndex::new(nodes.insert_reserved(idle(client)));
    let inserted: Result<_, _> = homes.map.insert(client, node);
    inserted.unwrap();
    homes.note_first(client);
    node
}

/// Removes a client's node, if it has one.
pub(crate) fn dismiss<A: Allocator + Copy>(
    homes: &mut NodeTable<A>,
    nodes: &mut Slab<Node, A>,
    client: u64,
)
    ensures homes { (d : ℕ)
        → node_index_of homes.new.map.entries d
        ≡ (if client == d then None else node_index_of homes.old.map.entries d) }
    ensures nodes { (n : ℕ)
        → is_at n (node_index_of homes.old.map.entries client) ≡ false
        → node_in nodes.new.slots n ≡ node_in nodes.old.slots n }
    ensures gone { IfSome (node_index_of homes.old.map.entries client) (λ n.
        node_in nodes.new.slots n ≡ None) }
    ensures len { length homes.new.map.entries ≤ length homes.old.map.entries }
{
    if let Some(node) = homes.map.remove(&client) {
        nodes.try_remove(node.get());
    }
}
