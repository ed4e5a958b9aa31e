//! Laws of what contracts see of a pool, each the contract of a function that does nothing.
ghost use Rattle.std.specs.Prelude.{◌≡◌, ℕ, ◌+◌, ◌-◌, ◌<◌, ◌≤◌, List, [], ◌∷◌, ◌++◌, Some, None, length, slice_set};
ghost use Rattle.std.specs.Prelude.{replicate};
ghost use Rattle.std.specs.FinMap.{empty, get, insert, remove};
ghost use Rattle.slot_pool.specs.Held.{Held, held_bytes, unused, held_at, count_at, bytes_at, one_less, free_by, spare};
ghost use Rattle.slot_pool.specs.Held.{IsFull, Puts};
ghost use Rattle.slot_pool.specs.Map.{as_map, ShowsUsed};
ghost use Rattle.slot_pool.specs.References.{Moved, Exact, Covers};
ghost use Rattle.slot_pool.specs.Times.{times};

/// A pool is the finite map from its slots in use to their counts and bytes, and each call changes it as the map's own
/// operation would: `put` and `join` insert a new key, `keep` raises the count at a key, and `give_back` lowers it, and
/// removes the key with the last reference.
pub fn a_pool_is_a_finite_map()
    ensures fresh { (n : ℕ) → as_map (replicate n unused) ≡ empty }
    ensures used { (p : List Held) (s : ℕ) → 0 < count_at p s → get (as_map p) s ≡ Some (held_at p s) }
    ensures unused { (p : List Held) (s : ℕ) → count_at p s ≡ 0 → get (as_map p) s ≡ None }
    ensures put { (p q : List Held) (bs : List ℕ) (s : ℕ) → Puts p q bs s →
        as_map q ≡ insert (as_map p) s (held_bytes 1 bs) }
    ensures keep { (p : List Held) (s : ℕ) (bs : List ℕ) → 0 < count_at p s →
        as_map (slice_set p s (held_bytes (count_at p s + 1) bs)) ≡
        insert (as_map p) s (held_bytes (count_at p s + 1) bs) }
    ensures give_back { (p : List Held) (s : ℕ) → 1 < count_at p s → as_map (slice_set p s (one_less (held_at p s))) ≡
        insert (as_map p) s (held_bytes (count_at p s - 1) (bytes_at p s)) }
    ensures last { (p : List Held) (s : ℕ) → count_at p s ≡ 1 → as_map (slice_set p s (one_less (held_at p s))) ≡
        remove (as_map p) s }
{}

/// Pools with as many slots and the same map are equal, if unused slots show no bytes; and the calls keep that so.
pub fn a_map_is_of_one_pool()
    ensures same { (p q : List Held) → length p ≡ length q → ShowsUsed p → ShowsUsed q → as_map p ≡ as_map q → p ≡ q }
    ensures fresh { (n : ℕ) → ShowsUsed (replicate n unused) }
    ensures put { (p q : List Held) (bs : List ℕ) (s : ℕ) → Puts p q bs s → ShowsUsed p → ShowsUsed q }
    ensures keep { (p : List Held) (s : ℕ) (bs : List ℕ) → 0 < count_at p s → ShowsUsed p →
        ShowsUsed (slice_set p s (held_bytes (count_at p s + 1) bs)) }
    ensures give_back { (p : List Held) (s : ℕ) → 0 < count_at p s → ShowsUsed p →
        ShowsUsed (slice_set p s (one_less (held_at p s))) }
{}

/// What each call moves: `put`, `join` and `keep` make a reference, `give_back` ends one.
pub fn calls_move_references()
    ensures put { (p q : List Held) (bs : List ℕ) (s : ℕ) → Puts p q bs s → Moved p q [] (s ∷ []) }
    ensures keep { (p : List Held) (s : ℕ) → 0 < count_at p s →
        Moved p (slice_set p s (held_bytes (count_at p s + 1) (bytes_at p s))) [] (s ∷ []) }
    ensures give_back { (p : List Held) (s : ℕ) → 0 < count_at p s →
        Moved p (slice_set p s (one_less (held_at p s))) (s ∷ []) [] }
{}

/// Moves of references compose: one after the other, beside other references, and in any order.
pub fn moves_compose()
    ensures same { (p : List Held) (xs : List ℕ) → Moved p p xs xs }
    ensures chain { (p q r : List Held) (a b c : List ℕ) → Moved p q a b → Moved q r b c → Moved p r a c }
    ensures beside { (p q : List Held) (a b c : List ℕ) → Moved p q a b → Moved p q (a ++ c) (b ++ c) }
    ensures before { (p q : List Held) (a b c : List ℕ) → Moved p q a b → Moved p q (c ++ a) (c ++ b) }
    ensures reordered { (p q : List Held) (a b a' b' : List ℕ) → ((i : ℕ) → times i a ≡ times i a') →
        ((i : ℕ) → times i b ≡ times i b') → Moved p q a b → Moved p q a' b' }
{}

/// References that are all that there are, or are among them, stay so through a move; and a body to which others refer
/// keeps its bytes.
pub fn counts_stay_exact()
    ensures fresh { (n : ℕ) → Exact (replicate n unused) [] }
    ensures exact { (p q : List Held) (a b : List ℕ) → Exact p a → Moved p q a b → Exact q b }
    ensures some { (p : List Held) (a b : List ℕ) → Exact p (a ++ b) → Covers p a }
    ensures covers { (p q : List Held) (a b c : List ℕ) → Covers p (a ++ c) → Moved p q a b → Covers q (b ++ c) }
    ensures others { (p q : List Held) (a b c : List ℕ) (s : ℕ) → Covers p (a ++ c) → Moved p q a b → 0 < times s c →
        (0 < count_at q s) × (bytes_at q s ≡ bytes_at p s) }
    ensures most { (p : List Held) (xs : List ℕ) (i : ℕ) → Exact p xs → count_at p i ≤ length xs }
{}

/// How many slots are unused, and that a pool with fewer references than slots has one left.
pub fn slots_suffice()
    ensures fresh { (n : ℕ) → spare (replicate n unused) ≡ n }
    ensures put { (p q : List Held) (bs : List ℕ) (s : ℕ) → Puts p q bs s → spare q + 1 ≡ spare p }
    ensures keep { (p : List Held) (s : ℕ) (bs : List ℕ) → 0 < count_at p s →
        spare (slice_set p s (held_bytes (count_at p s + 1) bs)) ≡ spare p }
    ensures give_back { (p : List Held) (s : ℕ) → 0 < count_at p s → spare (slice_set p s (one_less (held_at p s))) ≡
        spare p + free_by (count_at p s - 1) }
    ensures full { (p : List Held) → IsFull p → spare p ≡ 0 }
    ensures none_left { (p : List Held) → spare p ≡ 0 → IsFull p }
    ensures shared { (p : List Held) (xs : List ℕ) → Exact p xs → length p ≤ spare p + length xs }
    ensures not_full { (p : List Held) (xs : List ℕ) → Exact p xs → length xs < length p → IsFull p → ⊥ }
{}
