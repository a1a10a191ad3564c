// A refusal's number, and the refusals that the checks of a state and of an image lead to.
ghost use Rattle.std.specs.Prelude.{◌≡◌};
ghost use Rattle.semantics.specs.Answers.{refusal_number, check_refusal, image_refusal};

use crate::Refusal;
use image::ImageError;
use soundness::CheckError;

// "Refused, in checking order": the number of a refusal.
impl From<Refusal> for u32 {
    ghost from_gives = { λ refusal number. number ≡ refusal_number refusal };

    fn from(refusal: Refusal) -> u32 {
        match refusal {
            Refusal::Values => 1,
            Refusal::Workers => 2,
            Refusal::Nodes => 3,
            Refusal::Tape => 4,
            Refusal::Work => 5,
            Refusal::Unsound => 6,
            Refusal::Record => 7,
            Refusal::NoWorker => 8,
            Refusal::MainReturned => 9,
            Refusal::WorkerIdle => 10,
            Refusal::ThiefBusy => 11,
            Refusal::NoVictim => 12,
            Refusal::FramesFull => 13,
            Refusal::NoSplitter => 15,
            Refusal::PoolFull => 16,
            Refusal::Blocks => 17,
            Refusal::BlockCheck => 18,
            Refusal::Target => 19,
            Refusal::NoReducer => 20,
            Refusal::Places => 21,
            Refusal::Span => 22,
            Refusal::Lengths => 99,
        }
    }
}

// 5 and 6.
impl From<CheckError> for Refusal {
    ghost from_gives = { λ error refusal. refusal ≡ check_refusal error };

    fn from(error: CheckError) -> Refusal {
        match error {
            CheckError::NoRoom => Refusal::Work,
            CheckError::Unsound => Refusal::Unsound,
        }
    }
}

// 17 and 18.
impl From<ImageError> for Refusal {
    ghost from_gives = { λ error refusal. refusal ≡ image_refusal error };

    fn from(error: ImageError) -> Refusal {
        match error {
            ImageError::WrongLength => Refusal::Blocks,
            ImageError::WrongCheck => Refusal::BlockCheck,
        }
    }
}
