//! Laws of doubts: each function's contract is a law, and its body is empty.
//!
//! A caller whose proof needs a law calls the function.
ghost use Rattle.d64_survey.specs.DoubtLaws.{SoundWhateverItsDoubts, AmissWhereDoubtful, AmissWithoutDoubts};

/// Doubts do not decide whether an image is sound: it is sound exactly if it meets all six
/// conditions. But a doubt means that something is amiss, and without doubts that depends on
/// faults, read errors and files alone.
pub fn doubts_leave_soundness()
    ensures sound { SoundWhateverItsDoubts }
    ensures doubtful { AmissWhereDoubtful }
    ensures free { AmissWithoutDoubts }
{}
