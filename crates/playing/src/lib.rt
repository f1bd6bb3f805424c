// Lists of runs.
#![tactic(auto)]

ghost use Rattle.std.specs.Prelude.{◌≡◌, set};
ghost use Rattle.std.proofs.lemmas.List.Edits.{sets};
ghost use Rattle.refusal.specs.Outcomes.{after, refusal_number};
ghost use Rattle.tape.specs.Layout.{part};
ghost use Rattle.sequencer.specs.Records.{record_of, state_outcome_of};
ghost use Rattle.sequencer.specs.Services.{run_outcome};
ghost use Rattle.sequencer.specs.Lists.{turned, after_all, numbers_all, turn_of, requests_of};
ghost use Rattle.sequencer.specs.Demand.{ChainEnds, RewindEnds};

use parts::part;
use refusal::Refusal;
use running::run;
use sequencer::State;

// A list of runs, one after another, each on the record that those before it left, with its own turn made; the number of each, 0 or its
// refusal's, goes into the lent buffer, as far as that has places. A request is four words: where its tape begins and ends in the row of tapes, its turn and
// its goal. A tape past that row is the empty one, so run refuses it with 6. Nothing is refused here: one to three words left over are
// no request.
pub fn play(tapes: &[u32], requests: &[u32], state: State, numbers: &mut [u32]) -> State
    ensures result_value { record_of result ≡ after_all (requests_of tapes.now requests.now) (record_of state) }
    ensures numbers_after { numbers.new ≡ sets numbers.old 0 (numbers_all (requests_of tapes.now requests.now) (record_of state)) }
    ensures chain_ends { ChainEnds (requests_of tapes.now requests.now) (record_of state) numbers.new (record_of result) }
    ensures rewind_ends { RewindEnds (requests_of tapes.now requests.now) (record_of state) numbers.new (record_of result) }
{
    let mut after = state;
    let mut n: usize = 0;
    let mut left = requests;
    while let [begin, end, turn, goal, rest @ ..] = left {
        let given = turned(after, *turn);
        let answer = run_part(tapes, *begin, *end, given, *goal);
        note(numbers, n, answer);
        after = after_run(answer, given);
        n += 1;
        left = rest;
    }
    after
}

// The record that a run gets: the user's turn sets its position. 0 is no turn, n + 1 a turn to n.
fn turned(state: State, turn: u32) -> State
    ensures { record_of result ≡ turned (turn_of turn) (record_of state) }
{
    if turn == 0 {
        return state;
    }
    State {
        position: turn - 1,
        ..state
    }
}

// Run of a tape that is a part of a row.
fn run_part(tapes: &[u32], begin: u32, end: u32, given: State, goal: u32) -> Result<State, Refusal>
    ensures { state_outcome_of result ≡ run_outcome (part tapes.now begin end) (record_of given) goal }
{
    run(part(tapes, begin, end), given, goal)
}

// The record after a run: a refused one leaves what it got.
fn after_run(answer: Result<State, Refusal>, given: State) -> State
    ensures { record_of result ≡ after (state_outcome_of answer) (record_of given) }
{
    answer.unwrap_or(given)
}

// The number of a run, 0 or its refusal's, put into a row; past the row there is no place for it.
fn note(numbers: &mut [u32], at: usize, answer: Result<State, Refusal>)
    ensures { numbers.new ≡ set numbers.old at (refusal_number (state_outcome_of answer)) }
{
    if at < numbers.len() {
        numbers[at] = number_of(answer);
    }
}

fn number_of(answer: Result<State, Refusal>) -> u32
    ensures { result ≡ refusal_number (state_outcome_of answer) }
{
    match answer {
        Ok(state) => 0,
        Err(e) => u32::from(e),
    }
}
