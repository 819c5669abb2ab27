// A piece of a script run over lent nodes and store.
// Kept: piece, store and output are lent by different owners; a struct of them would hold two `&mut`, and each clause name
// its fields.
#![tactic(auto)]

mod lines;

ghost use Rattle.std.specs.Prelude.{◌≡◌};
ghost use Rattle.drill_state.specs.Feeding.{Taken};
ghost use Rattle.drill_run.specs.Feeds.{Feeds, fed_from};

use drill_state::{Drill, Fed, Position, Progress, first_line};
use lines::take_lines;
use protocol::Node;

// The bytes of a local array whose first bytes are a store. The eight after the store are not used: with them it begins
// at a multiple of sixteen, as functions on x86-64 begin their frames, and no read of its scan crosses a line of the
// cache. Nothing but speed depends on it.
pub const STORE_ROOM: usize = store::LENGTH + 8;

// How far the piece was taken, and where the drill stands then.
#[tactic(auto, unfolding(crate::specs::Feeds::fed_from))]
fn fed(position: Position, nodes: [Node; item::MAX_NODES]) -> Fed
    ensures { result ≡ fed_from position nodes }
{
    Fed {
        next: position.next,
        at: position.at,
        progress: Progress {
            count: position.count,
            pending: position.pending,
            drill: Drill {
                n: position.n,
                nodes,
            },
        },
    }
}

// Lends the nodes to the lines of a piece.
fn lend_nodes(
    piece: &[u8],
    first: Position,
    nodes: [Node; item::MAX_NODES],
    store: &mut [u8],
    out: &mut [u8],
) -> Fed
    ensures { Feeds piece.now out.old first nodes store.old out.new result store.new }
{
    let mut held = nodes;
    let last = take_lines(piece, first, &mut held, store, out);
    fed(last, held)
}

// Takes a piece of the script, and prints the lines that it ends from the start of `out` on. It stops before a line
// feed where `out` has no room for another line, and where no count is left.
pub fn feed(piece: &[u8], start: Progress, store: &mut [u8], out: &mut [u8]) -> Fed
    ensures { Taken piece.now start store.old result.next result.at out.new result.progress store.new }
{
    let first = first_line(piece, start, out);
    lend_nodes(piece, first, start.drill.nodes, store, out)
}
