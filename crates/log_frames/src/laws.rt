//! Laws of frames, which hold of all bytes. A law is the contract of a function with an empty body: a call does nothing, in constant time.

ghost use Rattle.std.specs.Prelude.{◌≡◌, ℕ, ◌+◌, ◌≤◌, ◌++◌, List, length};
ghost use Rattle.std.specs.List.{AllByRecursion};
ghost use Rattle.log_frames.specs.Cuts.{CutsAtAFrame};
ghost use Rattle.log_frames.specs.Frames.{frames, place_after, IsBody, Splits};
ghost use Rattle.log_frames.specs.declared.frame.Place.{Place};
ghost use Rattle.log_frames.specs.declared.frame.Stop.{Stop};

/// If the bytes of whole frames are cut off anywhere, the frames that end before the cut are left, and a rest that is torn.
///
/// So a write that was cut off leaves neither a bad head nor a bad digest.
pub fn any_prefix_is_cut_at_a_frame()
    ensures { (place : Place) (bodies : List (List ℕ)) (m : ℕ) → AllByRecursion IsBody bodies
        → m ≤ length (frames place bodies) → CutsAtAFrame place bodies m }
{}

/// Bytes have one reading at a place: one list of frames, one rest that begins with no whole frame, and one reason why.
pub fn only_one_reading()
    ensures { (place : Place) (bytes : List ℕ) (bodies others : List (List ℕ)) (rest after : List ℕ)
        (why other : Stop) → Splits place bytes bodies rest why
        → Splits place bytes others after other
        → (bodies ≡ others) × (rest ≡ after) × (why ≡ other) }
{}

/// The frames of a list of bodies that is two lists after each other are the frames of the first list, and then those of the second.
pub fn frames_join()
    ensures bytes { (place : Place) (bodies others : List (List ℕ))
        → frames place (bodies ++ others)
        ≡ frames place bodies ++ frames (place_after place bodies) others }
    ensures after { (place : Place) (bodies others : List (List ℕ))
        → place_after place (bodies ++ others) ≡ place_after (place_after place bodies) others }
{}

/// The position after frames is the position before them and the number of their bytes.
pub fn places_count_bytes()
    ensures { (place : Place) (bodies : List (List ℕ))
        → (place_after place bodies).at ≡ place.at + length (frames place bodies) }
{}
