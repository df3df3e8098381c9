// Which atoms the nodes name: one pass over the nodes and one over the atoms, by a row of marks.
ghost use Rattle.std.specs.Prelude.{◌≡◌, ◌≤◌, length};
ghost use Rattle.lists.specs.Entries.{any_below};
ghost use Rattle.values.specs.Limits.{most_atoms};
ghost use Rattle.model.specs.Model.{node_count};
ghost use Rattle.model.specs.Refusals.{unnamed};
ghost use Rattle.model.specs.Inside.{NodesFit, Marked};

use crate::kinds::Kind;
use values::limits::MOST_ATOMS;

// Marks the atoms that nodes name, in a row without a mark.
// kept: a node is three numbers of the list, as the C interface lends it.
fn mark_named(nodes: &[u16], marks: &mut [bool])
    requires { Marked nodes.now 0 marks.old × NodesFit (length marks.old) nodes.now }
    ensures { Marked nodes.now (node_count nodes.now) marks.new }
{
    for i in 0..nodes.len() / 3 {
        if nodes[3 * i] == Kind::Atom.number() {
            marks[nodes[3 * i + 1] as usize] = true;
        }
    }
}

// Whether there is an atom that no node names.
pub(crate) fn some_unnamed(atoms: usize, nodes: &[u16]) -> bool
    requires { (atoms ≤ most_atoms) × NodesFit atoms nodes.now }
    ensures { result ≡ any_below (unnamed nodes.now) atoms }
{
    let mut marks = [false; MOST_ATOMS];
    mark_named(nodes, &mut marks);
    marks[..atoms].contains(&false)
}
