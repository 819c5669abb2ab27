// The messages of a decision, put into a store over lent bytes by rising number. Bytes that are not as long as a store stay
// as they are.
ghost use Rattle.std.specs.Prelude.{◌≡◌, [], ◌∷◌};
ghost use Rattle.store.specs.Records.{on_records};
ghost use Rattle.store.specs.Change.{put_each};
ghost use Rattle.protocol.specs.Node.{row_items};
ghost use Rattle.protocol.specs.Outgoing.{outgoing_to, outgoing};

use crate::outgoing::{Sending, row_items};
use item::Item;

impl Sending<'_> {
    // The message to node `k`, if one goes there.
    fn put_one(&self, s: &mut [u8], k: usize, items: [Item; item::MAX_NODES])
        ensures { s.new ≡ on_records (λ rs. put_each rs (outgoing_to self.now.node.now self.now.sends self.now.back k ∷ []) items) s.old }
    {
        if let Some(envelope) = self.to(k) {
            store_change::put(s, envelope, items);
        }
    }

    // All messages, by rising number; a Table bears the items of the node's rows.
    #[tactic(auto, unfolding(protocol::specs::Outgoing::outgoing))]
    pub fn put_into(&self, s: &mut [u8])
        ensures { s.new ≡ on_records (λ rs. put_each rs (outgoing self.now.node.now self.now.sends self.now.back) (row_items self.now.node.now)) s.old }
    {
        let items = row_items(self.node);
        for k in 0..item::MAX_NODES {
            self.put_one(s, k, items);
        }
    }
}
