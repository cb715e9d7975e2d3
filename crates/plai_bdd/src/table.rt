ghost use Rattle.std.specs.Prelude.{◌≡◌, [], IfOk, OnOk};
ghost use Rattle.std.specs.List.{position};
ghost use Rattle.indexmap.specs.IndexSet.{keys};
ghost use Rattle.plai_bdd.specs.Nodes.{place_of, put, same_node};
ghost use Rattle.plai_bdd.specs.Table.{nodes_of};

use crate::node::Node;
use indexmap::IndexSet;
use std::alloc::{AllocError, Global};

/// Nodes, each once, in the order in which they came. Few of them are looked through in turn, many are found by their hashes.
#[derive(Drop)]
pub enum Table {
    Few(Vec<Node>),
    Many(IndexSet<Node>),
}

/// The table without nodes, for functions of lists of so many nodes. It has room for as many as the longer one has.
pub fn empty_table(alloc: Global, left: usize, right: usize) -> Result<Table, AllocError>
    ensures { IfOk result (λ table. nodes_of table ≡ []) }
{
    let room = left.max(right);
    if left <= 16 && right <= 16 {
        Ok(Table::Few(Vec::with_capacity(alloc, room)?))
    } else {
        Ok(Table::Many(IndexSet::with_capacity(alloc, room)?))
    }
}

/// The nodes of the table.
pub fn into_nodes(alloc: Global, table: Table) -> Result<Vec<Node>, AllocError>
    ensures { IfOk result (λ nodes. nodes.items ≡ nodes_of table) }
{
    match table {
        Table::Few(nodes) => Ok(nodes),
        Table::Many(index) => Vec::from_slice(alloc, index.as_slice()),
    }
}

/// The first place of the node, if it is there.
fn find(nodes: &[Node], node: Node) -> Option<usize>
    ensures { result ≡ position (same_node node) nodes.now }
{
    nodes.iter().position(|known| node == *known)
}

/// The place of the node among the nodes, where it goes last if it is not there.
fn place_among(nodes: &mut Vec<Node>, node: Node) -> Result<usize, AllocError>
    ensures place { IfOk result (λ place. place ≡ place_of node nodes.old.items) }
    ensures nodes { OnOk result (nodes.new.items ≡ put node nodes.old.items) }
{
    match find(nodes.as_slice(), node) {
        Some(place) => Ok(place),
        None => {
            let place = nodes.len();
            nodes.push(node)?;
            Ok(place)
        }
    }
}

/// The place of the node in the index, where it goes last if it is not there.
fn place_in(index: &mut IndexSet<Node>, node: Node) -> Result<usize, AllocError>
    ensures place { IfOk result (λ place. place ≡ place_of node (keys index.old)) }
    ensures index { OnOk result (keys index.new ≡ put node (keys index.old)) }
{
    let (place, _) = index.insert_full(node)?;
    Ok(place)
}

/// The place of a node in the table, where it goes last if it is not there.
pub fn place(table: &mut Table, node: Node) -> Result<usize, AllocError>
    ensures place { IfOk result (λ place. place ≡ place_of node (nodes_of table.old)) }
    ensures table { OnOk result (nodes_of table.new ≡ put node (nodes_of table.old)) }
{
    match table {
        Table::Few(nodes) => place_among(nodes, node),
        Table::Many(index) => place_in(index, node),
    }
}
