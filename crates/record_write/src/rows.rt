// The rows that a record of a message holds: how many, and which, as the crates `message` and `record` define it.
ghost use Rattle.std.specs.Prelude.{◌≡◌, ◌≤◌, take};
ghost use Rattle.item.specs.Maxima.{max_nodes};
ghost use Rattle.record.specs.Kind.{rows_held};
ghost use Rattle.record.specs.Layout.{padded, held_rows};

use item::Item;
use message::Message;

// How many rows a record of this message has in a group of `n`.
// Kept: beside `record_read::rows_of_kind`, for the reason that is given there.
#[tactic(auto, unfolding(record::specs::Kind::rows_held))]
pub fn rows_held(message: Message, n: usize) -> usize
    ensures { result ≡ rows_held message n }
{
    match message {
        Message::Table { .. } => n.min(item::MAX_NODES),
        _ => 0,
    }
}

// The first `held` rows, and zero items after them.
fn padded_rows(rows: [Item; item::MAX_NODES], held: usize) -> [Item; item::MAX_NODES]
    requires { held ≤ max_nodes }
    ensures { result ≡ padded max_nodes (take held rows) }
{
    let mut items = rows;
    items[held..].fill(Item::zero());
    items
}

// The rows that a record of this message holds in a group of `n`, and zero items after them.
#[tactic(auto, unfolding(record::specs::Layout::held_rows))]
pub fn held_rows(
    message: Message,
    n: usize,
    rows: [Item; item::MAX_NODES],
) -> [Item; item::MAX_NODES]
    ensures { result ≡ held_rows message n rows }
{
    padded_rows(rows, rows_held(message, n))
}
