//! Laws of what lies in a pool, each the contract of a function that does nothing.

ghost use Rattle.std.specs.Prelude.{◌≡◌, ℕ, ◌≤◌, List, ◌++◌, Option, length};
ghost use Rattle.slot_pool.specs.Held.{Held};
ghost use Rattle.slot_pool.specs.References.{Moved, Covers};
ghost use Rattle.layer_words.specs.declared.events.Dir.{Dir};
ghost use Rattle.pool_message.specs.Seen.{refs, content_seen, Lies, refs_if, seen_if, LiesIf, row_refs, row_seen};
ghost use Rattle.pool_message.specs.Seen.{RowLies};
ghost use Rattle.pool_message.specs.Seen.{event_refs, event_seen, EventLies};
ghost use Rattle.pool_message.specs.Sent.{sent_refs, sent_seen, SentLie};
ghost use Rattle.pool_message.specs.declared.event.PoolEvent.{PoolEvent};
ghost use Rattle.pool_message.specs.declared.message.PoolMessage.{PoolMessage};
ghost use Rattle.pool_message.specs.declared.row.PoolRow.{PoolRow};

/// While other references move, what lies in a pool lies there still, and shows the same.
pub fn what_lies_stays()
    ensures message { (p q : List Held) (a b : List ℕ) → Moved p q a b → (m : PoolMessage) → Covers p (a ++ refs m) →
        Lies p m → Lies q m × (content_seen q m ≡ content_seen p m) }
    ensures any { (p q : List Held) (a b : List ℕ) → Moved p q a b → (m : Option PoolMessage) →
        Covers p (a ++ refs_if m) → LiesIf p m → LiesIf q m × (seen_if q m ≡ seen_if p m) }
    ensures row { (p q : List Held) (a b : List ℕ) → Moved p q a b → (r : PoolRow) → Covers p (a ++ row_refs r) →
        RowLies p r → RowLies q r × (row_seen q r ≡ row_seen p r) }
    ensures event { (p q : List Held) (a b : List ℕ) → Moved p q a b → (e : PoolEvent) → Covers p (a ++ event_refs e) →
        EventLies p e → EventLies q e × (event_seen q e ≡ event_seen p e) }
    ensures sent { (p q : List Held) (a b : List ℕ) → Moved p q a b → (es : List (Dir × PoolEvent)) →
        Covers p (a ++ sent_refs es) → SentLie p es → SentLie q es × (sent_seen q es ≡ sent_seen p es) }
{}
