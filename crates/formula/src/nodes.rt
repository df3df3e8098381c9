// The node space.
ghost use Rattle.std.specs.Prelude.{[], ◌∷◌};
ghost use Rattle.model.specs.Kinds.{kind_number};
ghost use Rattle.formula.specs.Inside.{NodePut};

use model::kinds::Kind;
use values::limits::{MOST_NODE_NUMBERS, MOST_NODES};

// The three numbers of node n; one past the most nodes has no place.
pub(crate) fn put_node(
    space: &mut [u16; MOST_NODE_NUMBERS],
    n: usize,
    kind: Kind,
    left: u16,
    right: u16,
)
    ensures { NodePut n (kind_number kind ∷ left ∷ right ∷ []) space.old space.new }
{
    if n < MOST_NODES {
        let i = 3 * n;
        space[i] = kind.number();
        space[i + 1] = left;
        space[i + 2] = right;
    }
}
