//! Laws of lines, of moves and sequences, and of what is made of them. Each is the contract of a function that does nothing.
#![tactic(auto, using(crate::proofs::Home::of_all))]

ghost use Rattle.std.specs.Prelude.{◌≡◌, ◌≢◌, ◌↔◌, ℕ, ◌+◌, ◌<◌, ◌≤◌, ◌⊎◌, Bool, List, [], ◌∷◌, ◌++◌, map, length};
ghost use Rattle.std.specs.Prelude.{AllPairs, Contains, IsTrue, Ok, Err};
ghost use Rattle.std.specs.List.{sum_by};
ghost use Rattle.std.specs.List.{join_with_byte};
ghost use Rattle.niss_moves.specs.Names.{Token, Face, Power, Turn, Axis, Rotation, ReadFault};
ghost use Rattle.niss_moves.specs.Places.{Place, IsPlace, SameMap};
ghost use Rattle.niss_moves.specs.Facelets.{centre, places, letters};
ghost use Rattle.niss_moves.specs.Effects.{effect, effect_of_turns, moved_by, turned, inverse, HasMeaning};
ghost use Rattle.niss_moves.specs.Rotations.{spelling, face_before, face_before_power, renamed_turn, IsRotationOf};
ghost use Rattle.niss_moves.specs.Rotations.{expanded, token_of_basic, faces};
ghost use Rattle.niss_moves.specs.Canonical.{may_follow, last_turn, IsCanonical, all_canonical, DiffersFirst};
ghost use Rattle.niss_moves.specs.Canonical.{CanonicalMembers};
ghost use Rattle.niss_moves.specs.Cleaning.{IsRewriting, Cleans, disorder, clean_turns, rotation_left};
ghost use Rattle.niss_moves.specs.Line.{Moves, Spells, IsLine, joined_moves};
ghost use Rattle.niss_moves.specs.Faults.{Faults, Cut, Continues};
ghost use Rattle.niss_moves.specs.Text.{word, with_words};
ghost use Rattle.niss_moves.specs.Reader.{read_line};
ghost use Rattle.niss_moves.specs.Solving.{IsRotated, is_rotated, weight};
ghost use Rattle.niss_moves.specs.declared.token.Token.TheVariants as token;

/// `read_line`, which `read` and `finish` return, is the moves that spell the line, if they are at most 256, and else
/// the fault of the line.
pub fn line_is_read()
    ensures spelled { (bytes : List ℕ) (m : Moves) → (read_line bytes ≡ Ok m)
        ↔ (Spells bytes m.normal m.bracketed × (length m.normal + length m.bracketed ≤ 256)) }
    ensures faulty { (bytes : List ℕ) (f : ReadFault) → (read_line bytes ≡ Err f)
        ↔ ((IsLine bytes → ⊥) × Faults bytes f) }
{}

/// A line has one reading.
pub fn one_reading()
    ensures { (bytes : List ℕ) (n b m c : List Token) → Spells bytes n b → Spells bytes m c →
        (n ≡ m) × (b ≡ c) }
{}

/// A line has one fault.
pub fn one_fault()
    ensures { (bytes : List ℕ) (f g : ReadFault) → Faults bytes f → Faults bytes g → f ≡ g }
{}

/// At most one ending makes bytes a line.
pub fn one_ending()
    ensures { (bytes : List ℕ) (c d : Cut) (p q : Bool) → Continues bytes c p → Continues bytes d q →
        (c ≡ d) × (p ≡ q) }
{}

/// Moves written with single spaces, as by `put_tokens`, are read as normal moves, and no bracketed ones.
#[tactic(auto, using(crate::proofs::Words::words_are_read))]
pub fn words_are_read()
    ensures { (s : List Token) → Spells (with_words [] (map word s)) s [] }
{}

/// Moves are written, as by `put_tokens`, with one space between each two words.
#[tactic(auto, using(crate::proofs::Words::words_are_joined))]
pub fn words_are_joined()
    ensures { (s : List Token) → with_words [] (map word s) ≡ join_with_byte 32 (map word s) }
{}

/// A move brings places to places.
pub fn places_stay()
    ensures { (t : Token) (q : Place) → IsPlace q → IsPlace (moved_by t q) }
{}

/// The list `places` has the 54 sticker places, each once.
pub fn places_are_listed()
    ensures members { (q : Place) → IsPlace q ↔ Contains places q }
    ensures once { AllPairs (λ p q. p ≢ q) places }
    ensures number { length places ≡ 54 }
{}

/// The inverse of a sequence, made after it, brings each place back.
pub fn inverse_undoes()
    ensures { (s : List Token) (q : Place) → effect (inverse s) (effect s q) ≡ q }
{}

/// A sequence, made after its inverse, brings each place back.
pub fn inverse_is_undone()
    ensures { (s : List Token) (q : Place) → effect s (effect (inverse s) q) ≡ q }
{}

/// The effect of a sequence after another is made of theirs, one after the other.
pub fn effects_compose()
    ensures { (s t : List Token) (q : Place) → effect (s ++ t) q ≡ effect t (effect s q) }
{}

/// A line has one meaning.
pub fn one_meaning()
    ensures { (s t normal bracketed : List Token) → HasMeaning s normal bracketed →
        HasMeaning t normal bracketed → (q : Place) → effect s q ≡ effect t q }
{}

/// Maps that are the same on the 54 places have the same facelet text.
pub fn same_letters()
    ensures { (d e : Place → Place) → SameMap d e → letters d ≡ letters e }
{}

/// Two rotations that move the six centres alike are one. So each of the 24 has one spelling.
pub fn one_spelling()
    ensures { (r s : Rotation) →
        ((f : Face) → effect (spelling r) (centre f) ≡ effect (spelling s) (centre f)) → r ≡ s }
{}

/// Wide turns and slices have the effect of the face turns and rotations to which they are expanded.
pub fn expands_alike()
    ensures { (t : Token) (q : Place) → effect (map token_of_basic (expanded t)) q ≡ moved_by t q }
{}

/// A rotation renames the face turns after it.
pub fn rotations_rename()
    ensures about_axis { (axis : Axis) (p : Power) (t : Turn) (q : Place) →
        turned t (moved_by (token.Rotation axis p) q)
        ≡ moved_by (token.Rotation axis p) (turned (renamed_turn (face_before_power axis p) t) q) }
    ensures by_rotation { (r : Rotation) (t : Turn) (q : Place) →
        turned t (effect (spelling r) q) ≡ effect (spelling r) (turned (renamed_turn (face_before r) t) q) }
{}

/// A sequence and then the rotation that brings the centres home has the effect of its face turns, and there is such a
/// rotation. So does a line of normal and bracketed moves.
pub fn faces_are_home()
    ensures rotation { (s : List Token) → (home : Rotation)
        × ((f : Face) → effect (spelling home) (effect s (centre f)) ≡ centre f) }
    ensures effect { (s : List Token) (home : Rotation) →
        ((f : Face) → effect (spelling home) (effect s (centre f)) ≡ centre f) →
        (q : Place) → effect (spelling home) (effect s q) ≡ effect_of_turns (faces s) q }
    ensures line { (line : Moves) (s : List Token) (home : Rotation) →
        HasMeaning s line.normal line.bracketed →
        ((f : Face) → effect (spelling home) (effect s (centre f)) ≡ centre f) →
        (q : Place) → effect (spelling home) (effect s q) ≡ effect_of_turns (faces (joined_moves line)) q }
{}

/// A sequence has the effect of its face turns, cleaned or not, and then the rotation that is left at its end.
#[tactic(auto, using(crate::proofs::Home::faces_and_rotation, crate::proofs::Home::cleaned_effect))]
pub fn whole_effect()
    ensures faces { (s : List Token) (r : Rotation) → IsRotationOf s r →
        (q : Place) → effect s q ≡ effect (spelling r) (effect_of_turns (faces s) q) }
    ensures cleaned { (s : List Token) (c : List Turn) (r : Rotation) → Cleans (faces s) c →
        IsRotationOf s r → (q : Place) → effect s q ≡ effect (spelling r) (effect_of_turns c q) }
{}

/// The list of all canonical sequences of a length has exactly these sequences, in the order of the turns.
pub fn canonical_members()
    ensures members { CanonicalMembers }
    ensures order { (comes_before : Turn → Turn → Bool) (turns : List Turn) (k : ℕ) →
        AllPairs (λ t u. IsTrue (comes_before t u)) turns →
        AllPairs (DiffersFirst comes_before) (all_canonical turns k) }
{}

/// A canonical sequence goes on canonically by the turns that `allowed` lets stand after its last one.
pub fn canonical_grows()
    ensures { (s : List Turn) (t : Turn) → IsCanonical (s ++ t ∷ [])
        ↔ (IsCanonical s × IsTrue (may_follow (last_turn s) t)) }
{}

/// Leftmost rewriting ends for each list, since each rewriting shortens it or leaves fewer pairs in the wrong order.
pub fn cleaning_ends()
    ensures ends { (s : List Turn) → (c : List Turn) × Cleans s c }
    ensures lowers { (s t : List Turn) → IsRewriting s t →
        (length t < length s) ⊎ ((length t ≡ length s) × (disorder t < disorder s)) }
{}

/// Cleaning has one result, and leaves a canonical list as it is.
pub fn one_clean_list()
    ensures one { (s c d : List Turn) → Cleans s c → Cleans s d → c ≡ d }
    ensures stays { (s c : List Turn) → IsCanonical s → Cleans s c → c ≡ s }
{}

/// Cleaning and the rotation that is left are the functions `clean_turns` and `rotation_left`.
pub fn cleaned_lines()
    ensures turns { (s : List Turn) → Cleans s (clean_turns s) }
    ensures rotation { (s : List Token) → IsRotationOf s (rotation_left s) }
{}

/// A sequence and then another do no more than a rotation of the whole cube exactly if their face turns do nothing, those
/// of the second one renamed as the cube is held after the first.
pub fn solved_by_turns()
    ensures { (s t : List Token) (r : Rotation) → IsRotationOf s r → IsRotated (s ++ t)
        ↔ SameMap (λ q. effect_of_turns (map (renamed_turn (face_before r)) (faces t)) (effect_of_turns (faces s) q)) (λ q. q) }
{}

/// The test of a sequence says whether it does no more than a rotation.
#[tactic(auto, using(crate::proofs::Solving::rotated_is_tested))]
pub fn rotated_is_tested()
    ensures { (s : List Token) → IsTrue (is_rotated s) ↔ IsRotated s }
{}

/// A sequence counts as many moves as it has face turns.
#[tactic(auto, using(crate::proofs::Solving::counted_by_faces))]
pub fn counted_by_faces()
    ensures { (s : List Token) → sum_by weight s ≡ length (faces s) }
{}
