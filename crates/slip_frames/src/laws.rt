//! What follows from the definitions alone.

ghost use Rattle.std.specs.Prelude.{◌≡◌, ℕ, ◌<◌, ◌≤◌, ◌↔◌, List, [], ◌∷◌, length};
ghost use Rattle.tty_base.specs.Characters.{good_characters};
ghost use Rattle.slip_frames.specs.Slip.{Spells, text_of, pieces, outcomes, silent, packet_of, spelling_of, max_packet};

/// Each piece spells one list of bytes and no other.
pub fn a_piece_spells_one_text()
    ensures { (piece bytes : List ℕ) → Spells piece bytes ↔ (bytes ≡ text_of piece) }
{}

/// The pieces of a packet as it is sent are an empty one, and one that spells the packet and nothing else.
pub fn a_sent_packet_comes_back()
    ensures pieces { (packet : List ℕ)
        → (piece : List ℕ)
        × (pieces (good_characters (spelling_of packet)) ≡ [] ∷ good_characters piece ∷ [])
        × Spells piece packet
        × ((bytes : List ℕ) → Spells piece bytes → bytes ≡ packet) }
    ensures outcomes { (packet : List ℕ) → 0 < length packet → length packet ≤ max_packet →
        outcomes (good_characters (spelling_of packet)) ≡ silent ∷ packet_of packet ∷ [] }
{}
