ghost use Rattle.std.specs.Prelude.{◌≡◌, ◌++◌, ◌≤◌, All, List, ℕ, flat_map, length};
ghost use Rattle.quic_values.specs.Numbers.{shortest, size_of};
ghost use Rattle.quic_wire.specs.declared.frame.Frame.{Frame as FrameValue};
ghost use Rattle.quic_wire.specs.Frames.{AreFrames, BeginsWith, BeginsFrames};
ghost use Rattle.quic_wire.specs.Text.{HasLongNumbers, HasSpelling, size_bound, text};

/// What is written for a frame is spelled so, whatever follows.
pub fn spelled_so()
    ensures { (f : FrameValue) (rest : List ℕ) → HasSpelling f → BeginsWith (text f ++ rest) f rest }
{}

/// What is written for frames, one after the other, is spelled so, whatever follows.
pub fn all_spelled_so()
    ensures { (fs : List FrameValue) (rest : List ℕ) → All HasSpelling fs → BeginsFrames (flat_map text fs ++ rest) fs rest }
{}

/// Frames that bytes begin with, and those that the bytes after them begin with, are one list.
pub fn frames_join()
    ensures { (a b c : List ℕ) (fs gs : List FrameValue) → BeginsFrames a fs b → BeginsFrames b gs c → BeginsFrames a (fs ++ gs) c }
{}

/// Bytes are the spelling of one list of frames at most.
pub fn same_frames()
    ensures { (bytes : List ℕ) (fs gs : List FrameValue) → AreFrames bytes fs → AreFrames bytes gs → fs ≡ gs }
{}

/// The size of a number is how many bytes are written for it.
pub fn number_sizes()
    ensures { (n : ℕ) → length (shortest n) ≡ size_of n }
{}

/// What is written for a frame is never longer than its bound, and as long where each number takes eight bytes.
pub fn size_bounds()
    ensures kept { (f : FrameValue) → length (text f) ≤ size_bound f }
    ensures reached { (f : FrameValue) → HasLongNumbers f → length (text f) ≡ size_bound f }
{}
