// What a watched sample tells of breathing and heart.
ghost use Rattle.std.specs.Prelude.{◌≡◌};
ghost use Rattle.room_sensing.specs.Answers.{rate_of};

use estimator::Vitals;
use room_sensing::answer::Rate;

// An estimate, where one is due.
pub(crate) fn rate_of(answer: Option<Vitals>) -> Rate
    ensures { result ≡ rate_of answer }
{
    match answer {
        None => Rate::NotDue,
        Some(v) if v.accepted => Rate::Accepted(v.bpm_x10),
        Some(_) => Rate::NotAccepted,
    }
}
