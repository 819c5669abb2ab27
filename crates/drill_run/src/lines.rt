// What the lines of a piece of a drill's script ask of the group, carried out one by one over lent nodes and a lent store.
// It decides nothing.
ghost use Rattle.std.specs.Prelude.{◌≡◌, None};
ghost use Rattle.drill_run.specs.Taking.{Takes};

use drill_state::{Position, next_line};
use on_first_nodes::operate_first;
use protocol::Node;

// Carries out what the lines of a piece ask, from the first such line on: each is answered before the next is read.
pub fn take_lines(
    piece: &[u8],
    first: Position,
    nodes: &mut [Node],
    store: &mut [u8],
    out: &mut [u8],
) -> Position
    ensures { (result.asked ≡ None) × Takes piece.now out.old first nodes.old store.old out.new result nodes.new store.new }
{
    let mut position = first;
    // Kept: each turn makes the position that the next one looks at, so that there is no list to go over.
    while let Some(asked) = position.asked {
        let answer = operate_first(nodes, store, asked);
        position = next_line(piece, position, answer, out);
    }
    position
}
