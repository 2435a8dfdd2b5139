// The two kinds of answer.
ghost use Rattle.std.specs.Prelude.{◌≡◌};
ghost use Rattle.rules.specs.Outcome.{answered, refusal};

use records::SchedError;
use rules::{Answer, Pick, Value};

// Done, with the pick made and a value.
pub(crate) fn done(pick: Option<Pick>, value: Value) -> Answer
    ensures { result ≡ answered pick value }
{
    Answer {
        status: Ok(()),
        pick,
        value,
    }
}

// Refused: no pick and no value.
pub(crate) fn refused(error: SchedError) -> Answer
    ensures { result ≡ refusal error }
{
    Answer {
        status: Err(error),
        pick: None,
        value: Value::Nothing,
    }
}
