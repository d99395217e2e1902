// The numbers of the answer of receive.
ghost use Rattle.std.specs.Prelude.{[], ◌∷◌, ◌++◌};
ghost use Rattle.sfdu_stream.specs.Walk as Walking;
ghost use Rattle.ledger_receive.specs.Receive.{received_words};
ghost use Rattle.answers.specs.Numbers.{plain};
ghost use Rattle.answers.specs.inner.Numbers.{Numbers};

use answers::NUMBERS;
use ledger_receive::Received;
use refusals::Refusal;
use sfdu_stream::Walked;

pub fn received(answer: Result<Received, Refusal>) -> [u64; NUMBERS]
    ensures { Numbers result (plain (received_words answer)) }
{
    match answer {
        Ok(received) => handled(received.walked, received.ticked),
        Err(why) => answers::all(answers::refused(why)),
    }
}

// The walk's four numbers, and how many records were ticked.
fn handled(walked: Walked, ticked: usize) -> [u64; NUMBERS]
    ensures { Numbers result (plain (0 ∷ Walking.words_of walked ++ (ticked ∷ []))) }
{
    let count = walked.count as u64;
    let place = walked.place as u64;
    match walked.stop {
        Ok(()) => answers::five(count, place, 0, 0, ticked as u64),
        Err(fault) => answers::five(
            count,
            place,
            refusals::number(fault.refusal) as u64,
            fault.at as u64,
            ticked as u64,
        ),
    }
}
