//! What a session did, told by how it ended.

ghost use Rattle.std.specs.Prelude.{◌≡◌, ◌<◌, ◌↔◌, ℕ, ℤ, Bool, List, Option};
ghost use Rattle.jl_io.specs.Faults.{Rose};
ghost use Rattle.jl_embed.specs.Sessions.{Ending, unopened, IsSession};
ghost use Rattle.jl_embed.specs.Laws.{HasSession, AreAnswered, AreBegun, IsDue};

/// Where no count of faults rose and memory was not refused, exactly what is due was answered and written.
pub fn law_complete()
    ensures { (words count : ℕ) (allows : ℕ → ℤ → ℤ → ℤ → Bool) (left left' held held' : Option (List ℕ)) (s s' k k' : ℕ) (end_ : Ending)
        → (h : IsSession words count allows left left' held held' (Rose s s') (Rose k k') end_)
        → (Rose s s' → ⊥) → (Rose k k' → ⊥) → (end_.status ≡ 6 → ⊥)
        → IsDue count allows held held' words h.bytes end_ }
{}

/// Where a session is due, all its requests are answered, each by the text, the line and the relation alone, with status 0. Status 2 is due
/// exactly where there are words, status 3 exactly where there are none and the bytes are no session, and status 0 exactly where they are one.
pub fn law_due()
    ensures answered { (words count : ℕ) (allows : ℕ → ℤ → ℤ → ℤ → Bool) (held held' : Option (List ℕ)) (bytes script requests : List ℕ) (end_ : Ending)
        → IsDue count allows held held' words bytes end_ → HasSession words bytes script requests
        → AreAnswered count allows held held' script requests end_ }
    ensures usage { (words count : ℕ) (allows : ℕ → ℤ → ℤ → ℤ → Bool) (held held' : Option (List ℕ)) (bytes : List ℕ) (end_ : Ending)
        → IsDue count allows held held' words bytes end_ → (end_.status ≡ 2) ↔ (0 < words) }
    ensures refused { (words count : ℕ) (allows : ℕ → ℤ → ℤ → ℤ → Bool) (held held' : Option (List ℕ)) (bytes : List ℕ) (end_ : Ending)
        → IsDue count allows held held' words bytes end_
        → (end_.status ≡ 3) ↔ ((words ≡ 0) × ((script requests : List ℕ) → HasSession words bytes script requests → ⊥)) }
    ensures held { (words count : ℕ) (allows : ℕ → ℤ → ℤ → ℤ → Bool) (held held' : Option (List ℕ)) (bytes : List ℕ) (end_ : Ending)
        → IsDue count allows held held' words bytes end_
        → (end_.status ≡ 0) ↔ ((script : List ℕ) × (requests : List ℕ) × HasSession words bytes script requests) }
{}

/// Whatever the status, what was written of a session is a first part of replies to its first requests, and the answers and histories
/// that are handed out are exactly those of these requests. Status 4 comes only where the count of faults of the source rose, and status 5 only
/// where that of the sink did.
pub fn law_begun()
    ensures begun { (words count : ℕ) (allows : ℕ → ℤ → ℤ → ℤ → Bool) (left left' held held' : Option (List ℕ)) (s s' k k' : ℕ) (script requests : List ℕ) (end_ : Ending)
        → (h : IsSession words count allows left left' held held' (Rose s s') (Rose k k') end_)
        → HasSession words h.bytes script requests → (end_.status ≡ 4 → ⊥)
        → AreBegun count allows held held' script requests end_ }
    ensures unread { (words count : ℕ) (allows : ℕ → ℤ → ℤ → ℤ → Bool) (left left' held held' : Option (List ℕ)) (s s' k k' : ℕ) (end_ : Ending)
        → IsSession words count allows left left' held held' (Rose s s') (Rose k k') end_ → end_.status ≡ 4
        → Rose s s' × (held' ≡ held) × (end_ ≡ unopened 4) }
    ensures unwritten { (words count : ℕ) (allows : ℕ → ℤ → ℤ → ℤ → Bool) (left left' held held' : Option (List ℕ)) (s s' k k' : ℕ) (end_ : Ending)
        → IsSession words count allows left left' held held' (Rose s s') (Rose k k') end_ → end_.status ≡ 5 → Rose k k' }
{}
