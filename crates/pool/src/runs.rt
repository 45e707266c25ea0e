// A list of calls, made on a book in its order.
ghost use Rattle.std.specs.Prelude.{◌≡◌, length, IfOk, Ok, Err};
ghost use Rattle.agreement.specs.Calls.{after, answer};
ghost use Rattle.agreement.specs.Runs.{answers_to, run};
ghost use Rattle.pool.specs.Fixing.{terms_of};
ghost use Rattle.pool.specs.Settled.{Settled};

use crate::book::PoolBook;
use crate::settlement::Settlement;
use agreement::{Call, Refusal};
use schedule::Schedule;
use std::alloc::{AllocError, Global};

// What a list of calls came to: the answer to each, and the settlement of the book after them.
#[derive(Drop)]
pub struct Outcome {
    pub answers: Vec<Result<(), Refusal>>,
    pub settlement: Result<Settlement, Refusal>,
}

impl<M: Schedule, D: Schedule, O: Schedule> PoolBook<M, D, O> {
    // Makes one call.
    pub fn apply(&mut self, call: Call) -> Result<(), Refusal>
        ensures book { self.new.table ≡ after call self.old.table }
        ensures answers { result ≡ answer call self.old.table }
        ensures schedules { self.new.schedules ≡ self.old.schedules }
    {
        match call {
            Call::Enrol { account, retention } => self.table.enrol(account, retention),
            Call::Nominate(posting) => self.table.nominate(posting),
            Call::Read(posting) => self.table.read(posting),
            Call::Receive(posting) => self.table.receive(posting),
            Call::Notify { day } => self.table.notify(day),
            Call::Close => self.table.close(),
        }
    }

    // Makes all calls, and writes each one's answer at its place.
    fn run_into(&mut self, calls: &[Call], answers: &mut [Result<(), Refusal>])
        requires { length answers.old ≡ length calls.now }
        ensures book { self.new.table ≡ run calls.now self.old.table }
        ensures answers { answers.new ≡ answers_to calls.now self.old.table }
        ensures schedules { self.new.schedules ≡ self.old.schedules }
    {
        // By place: of what is written through `zip` over `iter_mut` a proof knows nothing after the loop.
        for (i, call) in calls.iter().enumerate() {
            answers[i] = self.apply(*call);
        }
    }

    // Makes all calls, and hands back their answers in order and the settlement of the book after them; none is made
    // where there is no memory for the answers.
    pub fn run(&mut self, heap: Global, calls: &[Call]) -> Result<Outcome, AllocError>
        ensures book { elim result [ Ok _ ↦ self.new.table ≡ run calls.now self.old.table | Err _ ↦ self.new.table ≡ self.old.table ] }
        ensures answers { IfOk result (λ outcome. outcome.answers.items ≡ answers_to calls.now self.old.table) }
        ensures settlement { IfOk result (λ outcome. Settled (terms_of M.lines D.lines O.lines self.old.schedules) (run calls.now self.old.table) outcome.settlement) }
        ensures schedules { self.new.schedules ≡ self.old.schedules }
    {
        let mut answers = vec![in heap; Ok(()); calls.len()]?;
        self.run_into(calls, &mut answers);
        let settlement = self.settle();
        Ok(Outcome {
            answers,
            settlement,
        })
    }
}
