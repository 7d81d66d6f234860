// Runs of steps, those of one stage after those of the other.
ghost use Rattle.std.specs.Prelude.{◌≡◌, ◌<◌};
ghost use Rattle.checker.specs.Step.{conf, run_of};
ghost use Rattle.states.specs.Stages.{finished};
ghost use Rattle.walk.specs.Levels.{levels_after};
ghost use Rattle.checker.specs.Bounds.{Lent, GoesOn, SomeSteps, ran_of, went_to};
ghost use Rattle.states.specs.declared.state.Stage.TheVariants.{Sweep, Walking};

use crate::steps;
use crate::steps::Went;
use faults::fault;
use records::files::File;
use states::state::{Stage, State};
use walk::positions::{Levels, Step, Walk};
use walk::{known, levels};

// Where a run stands, and how many steps it made.
#[derive(Clone, Copy, Debug, PartialEq, Eq)]
pub struct Ran {
    pub state: State,
    pub made: u64,
}

// A check is finished.
// A function: it is public.
pub fn is_finished(g: Stage) -> bool
    ensures { result ≡ finished g }
{
    matches!(g, Stage::Done { .. })
}

// Steps of the sweep, one or more and up to n.
// One step or more is asked for here, in run_walk and in run_stage: SomeSteps promises one.
fn run_sweep(f: &File, m: &mut [u8], s: State, from: u32, n: u64) -> Ran
    requires { Lent f.now.bytes.now m.old × (s.stage ≡ Sweep from) × (0 < n) }
    ensures { SomeSteps f.now.bytes.now s m.old n result m.new }
{
    let mut state = s;
    let mut at = from;
    for k in 0..n {
        state = steps::sweep(f, m, state.length, at);
        let Stage::Sweep { at: next } = state.stage else {
            return Ran { state, made: k + 1 };
        };
        at = next;
    }
    Ran { state, made: n }
}

// A run that stops after a step of the walk: its step, what it came to, and how many steps were made.
fn stopped(length: u32, up: Levels, t: Step, went: Went, made: u64) -> Ran
    ensures { result ≡ record { state = went_to length (levels_after up t) went; made = made } }
{
    Ran {
        state: steps::left_at(length, levels::after(up, t), went),
        made,
    }
}

// Steps of the walk on one level of an index, one or more and up to n; the last may lead to another level.
fn run_walk(f: &File, m: &mut [u8], s: State, from: Walk, up: Levels, n: u64) -> Ran
    requires { GoesOn f.now.bytes.now m.old s × (s.stage ≡ Walking from up) × (0 < n) }
    ensures { SomeSteps f.now.bytes.now s m.old n result m.new }
{
    let b = f.body;
    let room = levels::room_below(up);
    let mut w = from;
    let mut v = known::known(b, w);
    for k in 0..n {
        v = known::next_variable(b, w, v);
        let t = walk::steps::step(b, w, v, up.a, room);
        let went = steps::settle(b, m, w, t);
        let Went::On { walk: next } = went else {
            return stopped(s.length, up, t, went, k + 1);
        };
        if levels::changes_level(t) {
            return stopped(s.length, up, t, went, k + 1);
        }
        w = next;
    }
    Ran {
        state: State {
            length: s.length,
            stage: Stage::Walking { walk: w, up },
        },
        made: n,
    }
}

// Steps of one stage, up to n, and one or more unless the check is finished.
fn run_stage(f: &File, m: &mut [u8], s: State, n: u64) -> Ran
    requires { GoesOn f.now.bytes.now m.old s × (0 < n) }
    ensures { SomeSteps f.now.bytes.now s m.old n result m.new }
{
    match s.stage {
        Stage::Fresh => Ran {
            state: steps::open(f.bytes, m, s.length),
            made: 1,
        },
        Stage::Sweep { at } => run_sweep(f, m, s, at, n),
        Stage::Walking { walk, up } => run_walk(f, m, s, walk, up, n),
        Stage::Done { .. } => Ran { state: s, made: 0 },
        Stage::OutOfRange => Ran {
            state: steps::refused(fault::none_involved(), 20),
            made: 1,
        },
    }
}

// Up to n steps.
// That it goes on is a fact of the file, the marks and the state together, and each step changes the last two: no struct holds the three.
// No `for`: each turn makes as many steps as its stage has left, so no number of turns is known before the last.
pub fn run(f: &[u8], m: &mut [u8], s: State, n: u64) -> Ran
    requires { GoesOn f.now m.old s }
    ensures { ran_of result m.new ≡ run_of f.now (conf s m.old) n }
{
    let file = File::new(f);
    let mut ran = Ran { state: s, made: 0 };
    while ran.made < n && !is_finished(ran.state.stage) {
        let more = run_stage(&file, m, ran.state, n - ran.made);
        ran = Ran {
            state: more.state,
            made: ran.made + more.made,
        };
    }
    ran
}
