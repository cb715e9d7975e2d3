ghost use Rattle.std.specs.Prelude.{◌≡◌, ◌<◌, ◌+◌, ◌++◌, ◌∷◌, [], decimal, OnOk};
ghost use Rattle.plai_bdd.specs.Nodes.{tree_at};
ghost use Rattle.plai_bdd.specs.Table.{IsSource};
ghost use Rattle.plai_bdd.specs.Text.{tree_text};
ghost use Rattle.plai_bdd.specs.Tree.{Tip};
ghost use Rattle.plai_bdd.specs.declared.change.Change.TheVariants.{Keep};

use crate::combine::node_at;
use crate::node::Node;
use itoa::Buffer;
use std::alloc::AllocError;

fn write_leaf(answer: bool, out: &mut Vec<u8>) -> Result<(), AllocError>
    ensures { OnOk result (out.new.items ≡ out.old.items ++ tree_text (Tip answer)) }
{
    out.push(if answer { b't' } else { b'f' })?;
    Ok(())
}

fn open_branch(slot: u32, out: &mut Vec<u8>) -> Result<(), AllocError>
    requires { slot < 64 }
    ensures { OnOk result (out.new.items ≡ out.old.items ++ 40 ∷ (decimal (slot + 1) ++ 32 ∷ [])) }
{
    out.push(b'(')?;
    let mut buffer = Buffer::new();
    out.extend_from_slice(buffer.format(slot + 1).as_bytes())?;
    out.push(b' ')?;
    Ok(())
}

/// Appends the text of the function at a place. The calls nest at most 65 deep, since slots grow.
pub fn write_node(nodes: &[Node], place: usize, out: &mut Vec<u8>) -> Result<(), AllocError>
    requires { IsSource Keep nodes.now place }
    ensures { OnOk result (out.new.items ≡ out.old.items ++ tree_text (tree_at nodes.now place)) }
{
    match node_at(nodes, place) {
        Node::Leaf(answer) => write_leaf(answer, out),
        Node::Branch { slot, low, high } => {
            open_branch(slot, out)?;
            write_node(nodes, high, out)?;
            out.push(b' ')?;
            write_node(nodes, low, out)?;
            out.push(b')')?;
            Ok(())
        }
    }
}
