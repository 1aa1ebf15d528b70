//! Making a list of calls on a new level, with real claims.
ghost use Rattle.level.specs.View.{view};
ghost use Rattle.replay.specs.Law.{Law, LinkAnswer, OneWayAnswer};
ghost use Rattle.replay.specs.State.{Keeps, Shows, State, spent, token};
ghost use Rattle.std.specs.Prelude.{◌≡◌, ℕ, List, [], IfOk, replicate};

use crate::calls::{Answer, Call};
use faults::Fault;
use level::{Claim, Level};
use linker::{link, one_way_link};
use sources::Source;
use std::alloc::{AllocError, Global};

// A level, and by their number the claims that it granted in this run and that were not shown yet.
struct Run {
    level: Level,
    claims: Vec<Option<Claim>>,
}

// The output of a linking copied, so that the answer says what it holds after the call, and its working memory.
fn buffers(heap: Global, output: &[u16], memory: usize) -> Result<(Vec<u16>, Vec<u16>), AllocError>
    ensures { IfOk result (λ made. (made.0.items ≡ output.now) × (made.1.items ≡ replicate memory 0)) }
{
    let copy = Vec::from_slice(heap, output)?;
    let working = Vec::from_elem(heap, 0u16, memory)?;
    Ok((copy, working))
}

impl Run {
    // A new level over a source, and no claims.
    fn new<S: Source>(heap: Global, source: &S) -> Run
        ensures { State (S.Source.lists source.now) [] result }
    {
        Run {
            level: Level::new(source),
            claims: Vec::new(heap),
        }
    }

    // Claims a door, and keeps the claim at hand.
    #[tactic(auto, using(crate::proofs::Steps::keeps_claim, crate::proofs::Steps::keeps_refused))]
    fn claim(&mut self, door: u8) -> Result<Answer, AllocError>
        ensures { IfOk result (λ a. Keeps self.old (Call.Claim door) a self.new) }
    {
        // room first: no claim may be let go where memory runs out
        self.claims.reserve(1)?;
        match self.level.claim(door) {
            Ok(claim) => {
                self.claims.push_reserved(Some(claim));
                Ok(Answer::Claimed(self.level.granted()))
            }
            Err(fault) => Ok(Answer::Refused(fault)),
        }
    }

    // Takes the claim with this number, if it is at hand.
    fn take_claim(&mut self, number: u32) -> Option<Claim>
        ensures value { result ≡ token self.old.claims.items number }
        ensures left { self.new.claims.items ≡ spent self.old.claims.items number }
        ensures level { self.new.level ≡ self.old.level }
    {
        let place = number.checked_sub(1)?;
        self.claims.get_mut(place as usize)?.take()
    }

    // Edits the level with the claim of this number, if it is at hand.
    fn show<F: FnOnce(&mut Level, Claim) -> Result<(), Fault>>(
        &mut self,
        number: u32,
        edit: F,
    ) -> Answer
        requires { F.IsAlwaysCallable edit }
        ensures { Shows F.FnOnce edit self.old number result self.new }
    {
        let Some(claim) = self.take_claim(number) else {
            return Answer::NotShown;
        };
        edit(&mut self.level, claim).into()
    }

    // A one-way linking of the level as it is.
    fn one_way(
        &self,
        heap: Global,
        sides: &[u8],
        output: &[u16],
        memory: usize,
    ) -> Result<Answer, AllocError>
        ensures { IfOk result (λ a. OneWayAnswer (view self.now.level).lists sides.now output.now memory a) }
    {
        let (mut output, mut working) = buffers(heap, output, memory)?;
        let proposals = one_way_link(&self.level, sides, &mut output, &mut working);
        Ok(Answer::OneWay { proposals, output })
    }

    // A linking of the level as it is.
    fn link(&self, heap: Global, output: &[u16], memory: usize) -> Result<Answer, AllocError>
        ensures { IfOk result (λ a. LinkAnswer (view self.now.level).lists output.now memory a) }
    {
        let (mut output, mut working) = buffers(heap, output, memory)?;
        let linked = link(&self.level, &mut output, &mut working);
        Ok(Answer::Link { linked, output })
    }

    // Makes a call.
    #[tactic(auto, using(crate::proofs::Steps::keeps_free, crate::proofs::Steps::keeps_forbid, crate::proofs::Steps::keeps_favour, crate::proofs::Steps::keeps_one_way, crate::proofs::Steps::keeps_link))]
    fn respond(&mut self, heap: Global, call: &Call) -> Result<Answer, AllocError>
        ensures { IfOk result (λ a. Keeps self.old call.now a self.new) }
    {
        match call {
            Call::Claim(door) => self.claim(*door),
            Call::Release(number) => Ok(self.show(*number, Level::release)),
            Call::Strike(number) => Ok(self.show(*number, Level::strike)),
            Call::Free(door) => Ok(self.level.free(*door).into()),
            Call::Forbid(a, b) => Ok(self.level.forbid(*a, *b).into()),
            Call::Favour(a, b) => Ok(self.level.favour(*a, *b).into()),
            Call::OneWay {
                sides,
                output,
                memory,
            } => self.one_way(heap, sides, output, *memory),
            Call::Link { output, memory } => self.link(heap, output, *memory),
        }
    }

    // Makes the calls in their order.
    #[tactic(auto, using(crate::proofs::Run::led_none, crate::proofs::Run::led_more, crate::proofs::Run::led_all))]
    fn make(&mut self, heap: Global, calls: &[Call]) -> Result<Vec<Answer>, AllocError>
        ensures { IfOk result (λ answers. (ls : List (List ℕ)) → State ls [] self.old → Law ls calls.now answers.items) }
    {
        let mut answers = Vec::new(heap);
        for call in calls {
            let answer = self.respond(heap, call)?;
            answers.push(answer)?;
        }
        Ok(answers)
    }

    // Gives the claims back that were not shown.
    fn end(self) {
        let Run {
            mut level,
            mut claims,
        } = self;
        // stays: the library's iterators that consume a Vec ask for elements that may be dropped, and a claim may not; so no `for`
        while let Some(slot) = claims.pop() {
            if let Some(claim) = slot {
                let _ = level.release(claim);
            }
        }
        claims.destroy_empty();
    }
}

/// Makes any list of calls on a new level over a source, each claim shown as the claim that was granted, and gives their answers.
/// Claims that no call shows go back at the end.
pub fn replay<S: Source>(
    heap: Global,
    source: &S,
    calls: &[Call],
) -> Result<Vec<Answer>, AllocError>
    ensures { IfOk result (λ answers. Law (S.Source.lists source.now) calls.now answers.items) }
{
    let mut run = Run::new(heap, source);
    let answers = run.make(heap, calls);
    run.end();
    answers
}
