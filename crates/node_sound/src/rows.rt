// Soundness of a node's rows: rows from n on are zero, and the others hold nothing but what the node's phase uses.
ghost use Rattle.std.specs.Prelude.{◌≡◌};
ghost use Rattle.protocol.specs.Sound.{row_use, row_fits, row_sound, rows_sound};

use item::{Attempt, Incarnation, Row};
use node::count_peers;
use protocol::{Node, Phase, RowUse};

// Whether a node of a group of n has nothing in its rows but what its phase uses.
#[tactic(auto, unfolding(protocol::specs::Sound::rows_sound))]
pub fn rows_sound(n: usize, node: &Node) -> bool
    ensures { result ≡ rows_sound n node.now }
{
    let held = row_use(node.phase, count_peers(&node.counted));
    node.rows
        .iter()
        .enumerate()
        .all(|(k, row)| row_sound(held, n, k, row))
}

// Whether row k fits in a group of n, where rows from n on are unused.
#[tactic(auto, unfolding(protocol::specs::Sound::row_sound))]
fn row_sound(held: RowUse, n: usize, k: usize, row: &Row) -> bool
    ensures { result ≡ row_sound held n k row.now }
{
    if k < n {
        return row_fits(held, row);
    }
    row_fits(RowUse::Zero, row)
}

// Whether a row has nothing but what is used of it.
#[tactic(auto, unfolding(protocol::specs::Sound::row_fits, item::specs::Row::same_row, item::specs::Item::same_item, item::specs::Item::tags_agree, item::specs::Counter::same_incarnation, item::specs::Counter::same_attempt))]
fn row_fits(held: RowUse, row: &Row) -> bool
    ensures { result ≡ row_fits held row.now }
{
    match held {
        RowUse::Zero => *row == Row::zero(),
        RowUse::Fetched => row.incarnation == Incarnation(0) && row.attempt == Attempt(0),
        RowUse::Stored => !row.marked,
    }
}

// What a node in this phase that counts so many peers uses of its rows.
#[tactic(auto, unfolding(protocol::specs::Sound::row_use))]
fn row_use(phase: Phase, counted: usize) -> RowUse
    ensures { result ≡ row_use phase counted }
{
    match phase {
        Phase::Down => RowUse::Zero,
        Phase::Fetching if counted == 0 => RowUse::Zero,
        Phase::Fetching => RowUse::Fetched,
        Phase::Returning(_) | Phase::Up(_) => RowUse::Stored,
    }
}
