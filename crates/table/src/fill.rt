// A lent table as set-up leaves it: the loop over its nodes.
ghost use Rattle.std.specs.Prelude.{◌≡◌};
ghost use Rattle.table.specs.Fill.{fresh_to};

use crate::replace_node;
use node::fresh_node;
use protocol::Node;

// The first n nodes become those of a group of n as it is set up; a table of fewer nodes is filled to its end.
#[tactic(auto, unfolding(crate::specs::Fill::fresh_to))]
pub fn fill_table(table: &mut [Node], n: usize)
    ensures { table.new ≡ fresh_to n table.old n }
{
    for i in 0..n {
        replace_node(table, i, fresh_node(i, n));
    }
}
