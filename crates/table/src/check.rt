// Whether a lent table is sound: the loop over its nodes, each of which is judged where it stands.
ghost use Rattle.std.specs.Prelude.{◌≡◌};
ghost use Rattle.protocol.specs.Table.{sound_table};

use protocol::Node;

// Whether the table has n nodes and each is sound at its place. A node is looked at in any case: with no branch the compiler
// joins the tests of all.
#[tactic(auto, unfolding(crate::proofs::CheckLaws::sound_to))]
pub fn check_table(table: &[Node], n: usize) -> bool
    ensures { result ≡ sound_table n table.now }
{
    let mut ok = table.len() == n;
    for (i, node) in table.iter().enumerate() {
        ok &= node_sound::node_sound(n, i, node);
    }
    ok
}
