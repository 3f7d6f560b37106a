//! Laws of streams.

ghost use Rattle.std.specs.Prelude.{◌≡◌, ℕ, List, ◌++◌, None};
ghost use Rattle.cmh_frames.specs.declared.edition.Edition.{Edition};
ghost use Rattle.cmh_frames.specs.declared.frame.Frame.{Frame};
ghost use Rattle.cmh_reader.specs.Reader.{BeginsLink};
ghost use Rattle.cmh_reader.specs.Stream.{Reads, fault_of};
ghost use Rattle.cmh_reader.specs.declared.standing.Standing.{Standing};

/// Each stream has its frames and has come to something, and to nothing else: so also its fault is one.
pub fn one_reading_law()
    ensures some { (edition : Edition) (senders stream : List ℕ)
        → (frames : List Frame) × (standing : Standing) × Reads edition senders stream frames standing }
    ensures one { (edition : Edition) (senders stream : List ℕ) (frames others : List Frame) (standing other : Standing)
        → Reads edition senders stream frames standing → Reads edition senders stream others other
        → (frames ≡ others) × (standing ≡ other) }
{}

/// What an expected site writes on a link has no fault, and its frames are a beginning of those that were sent.
pub fn link_law()
    ensures { (edition : Edition) (senders stream : List ℕ) (frames sent : List Frame) (standing : Standing)
        → Reads edition senders stream frames standing → BeginsLink edition senders stream sent
        → (fault_of standing ≡ None) × ((later : List Frame) × (frames ++ later ≡ sent)) }
{}
