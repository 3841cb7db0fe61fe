// Rounds of requests, one after another.
ghost use Rattle.std.specs.Prelude.{◌<◌, ◌≤◌, ℕ, List, IfOk, IfErr};
ghost use Rattle.request_rounds.specs.declared.rounds.Reached.{Reached};
ghost use Rattle.request_rounds.specs.Rounds.{CanGo, Halts, Went};

use lists::NoMemory;

/// What a round asks, and how many requests these are.
#[derive(Drop)]
pub struct Turned<T> {
    pub what: T,
    pub wanted: usize,
}

/// How far the rounds have come, and how many requests were made.
#[derive(Drop)]
pub struct Reached<P> {
    pub progress: P,
    pub made: u32,
}

/// Why the rounds stop, and what the last one asks.
#[derive(Drop)]
pub enum Halt<T, E> {
    /// There was no memory for what a round asks, or for what becomes of its answers.
    NoMemory,
    /// The round was refused.
    Refused { what: T, why: E },
    /// So many requests were made, and the round wants so many more, which together pass the limit. It was not asked.
    Over { what: T, made: u32, wanted: u32 },
}

/// Asks so many rounds, each behind the one before. In a round `turn` says what is wanted; where the limit has room for all of it, `ask`
/// asks it of the lanes, and `take` goes on with the answers. The first round that is not asked whole, or not taken, ends them.
pub fn ask_rounds<
    P: Drop,
    T: Drop,
    A: Drop,
    E: Drop,
    L,
    TURN: Fn(P) -> Result<Turned<T>, NoMemory>,
    ASK: Fn(&T, &mut [L]) -> Result<A, E>,
    TAKE: Fn(T, A) -> Result<P, NoMemory>,
>(
    rounds: usize,
    cap: u32,
    start: P,
    lanes: &mut [L],
    turn: &TURN,
    ask: &ASK,
    take: &TAKE,
) -> Result<Reached<P>, Halt<T, E>>
    requires can { (n : ℕ) (reached : Reached P) (middle : List L) → n < rounds
        → Went (TURN.post turn.now) (ASK.post ask.now) (TAKE.post take.now) cap n (record { progress = start; made = 0 }) lanes.old reached middle
        → CanGo (TURN.post turn.now) (ASK.post ask.now) (TAKE.post take.now) cap (TURN.pre turn.now) (ASK.pre ask.now) (TAKE.pre take.now) reached middle }
    ensures went { IfOk result (λ reached. Went (TURN.post turn.now) (ASK.post ask.now) (TAKE.post take.now) cap rounds
        (record { progress = start; made = 0 }) lanes.old reached lanes.new) }
    ensures halts { IfErr result (λ why. Halts (TURN.post turn.now) (ASK.post ask.now) (TAKE.post take.now) cap rounds
        (record { progress = start; made = 0 }) lanes.old why lanes.new) }
{
    let mut progress = start;
    let mut made: u32 = 0;
    for _ in 0..rounds {
        let Ok(turned) = turn(progress) else {
            return Err(Halt::NoMemory);
        };
        let Turned { what, wanted } = turned;
        if wanted > (cap - made) as usize {
            let wanted = wanted.min(u32::MAX as usize) as u32;
            return Err(Halt::Over { what, made, wanted });
        }
        let answers = match ask(&what, lanes) {
            Ok(answers) => answers,
            Err(why) => return Err(Halt::Refused { what, why }),
        };
        progress = match take(what, answers) {
            Ok(next) => next,
            Err(_) => return Err(Halt::NoMemory),
        };
        made += wanted as u32;
    }
    Ok(Reached { progress, made })
}
