ghost use Rattle.std.specs.Prelude.{◌≡◌, ◌+◌, ◌<◌, ◌+ℤ◌, ◌-ℤ◌, IfErr, IfOk, [], drop, length, pos, slice_set};
ghost use Rattle.qm_math.specs.Ranges.{IsBetween};
ghost use Rattle.qm_model.specs.Ranges.{range_at, single};
ghost use Rattle.qm_model.specs.declared.variable.Player.TheVariants.{Exists, All as Universal};
ghost use Rattle.qm_legal.specs.SearchSteps.{SetsNext};
ghost use Rattle.qm_search.specs.AnswerSteps.{AreAllAnswered, AreAnswered, IsRightAnswer};
ghost use Rattle.qm_search.specs.ChoiceSteps.{AreAllTried, AreTried};
ghost use Rattle.qm_search.specs.JudgeSteps.{IsKnownPoint};
ghost use Rattle.qm_search.specs.OutcomeSteps.{IsOutcome};
ghost use Rattle.qm_search.specs.PartSteps.{IsStart};
ghost use Rattle.qm_search.specs.PlaceSteps.{Completes, next_value};
ghost use Rattle.qm_search.specs.StopSteps.{IsRightStop};
ghost use Rattle.qm_search.specs.VisitSteps.{CompletesNext, IsNewPlace, IsNewValuePlace, IsRunPlace, IsValuePlace, IsVisitPlace, Moved, WentAmong, WentAt, WentBelow};
ghost use Rattle.qm_search.specs.Windows.{IsProperWindow};

use crate::answer::{Answer, Reply, legal_answer};
use crate::answers::{Answered, Answers};
use crate::choices::{Choices, Tried};
use crate::everywhere::settled;
use crate::guides::Guides;
use crate::judge::{Judged, judge};
use crate::legality::{is_known, later_values, legality, list_of};
use crate::looks::{FirstLook, Lowest, first_look};
use crate::outcome::Outcome;
use crate::start::{latest, likeliest};
use crate::state::Search;
use crate::stop::Stop;
use crate::window::Window;
use qm_game::Place;
use qm_journal::JKind;
use qm_legal::Legality;
use qm_model::{Range, is_for_all, single};
use qm_relax::BestPoint;
use std::alloc::Global;

/// The outcome of an entered prefix for the window, where these values complete those of the universal variables that are
/// set. The box stays as it was, and the journal goes on below the entry.
#[cycle(search)]
pub fn visit(
    alloc: Global,
    here: Place<'_>,
    search: &mut Search,
    guides: &mut Guides,
    entry: u32,
    completion: &[i64],
    point: &Option<BestPoint>,
    window: &Window,
) -> Result<Outcome, Stop>
    requires some { 0 < length here.rest.now }
    requires place { IsVisitPlace here.game.now here.depth search.old entry completion.now }
    requires point { IsKnownPoint here.game.now point.now }
    requires window { IsProperWindow window.now }
    ensures outcome { IfOk result (IsOutcome here.entry.game.now [] [] here.entry.rest.now here.entry.depth search.old.bx window.now) }
    ensures stop { IfErr result (IsRightStop here.entry.game.now search.new.journal) }
    ensures moved { Moved here.entry.game.now (WentBelow entry) search.old search.new }
{
    if is_for_all(&here.rest[0]) {
        worst_answer(
            alloc, here, search, guides, entry, completion, point, window,
        )
    } else {
        best_choice(
            alloc, here, search, guides, entry, completion, point, window,
        )
    }
}

/// The outcome of a prefix with a value behind it, which is set in the box: as it is judged, or else by a visit.
#[cycle(search)]
fn look_into(
    alloc: Global,
    here: Place<'_>,
    search: &mut Search,
    guides: &mut Guides,
    entry: u32,
    value: i64,
    completion: &[i64],
    point: &Option<BestPoint>,
    window: &Window,
) -> Result<Outcome, Stop>
    requires place { IsNewPlace here.game.now here.depth search.old entry value completion.now }
    requires point { IsKnownPoint here.game.now point.now }
    requires window { IsProperWindow window.now }
    ensures outcome { IfOk result (IsOutcome here.entry.game.now [] [] here.entry.rest.now here.entry.depth search.old.bx window.now) }
    ensures stop { IfErr result (IsRightStop here.entry.game.now search.new.journal) }
    ensures moved { Moved here.entry.game.now (WentAt entry value) search.old search.new }
{
    match judge(alloc, here, &search.bx, point, window)? {
        Judged::Known(outcome) => Ok(outcome),
        Judged::Open(bound) => {
            let entered = search.journal.enter(JKind::Game, entry, value)?;
            let outcome = visit(
                alloc,
                here,
                search,
                guides,
                entered,
                completion,
                latest(&bound, point),
                window,
            )?;
            guides.keep(alloc, here, &search.bx, &outcome)?;
            Ok(outcome)
        }
    }
}

/// The outcome of a prefix with a value behind it, which is set in the box: by a policy that is remembered, where one
/// secures the cap, else as it is judged or by a visit. Where one secures a value, only better ones are looked for.
#[cycle(search)]
fn enter(
    alloc: Global,
    here: Place<'_>,
    search: &mut Search,
    guides: &mut Guides,
    entry: u32,
    value: i64,
    completion: &[i64],
    point: &Option<BestPoint>,
    window: &Window,
) -> Result<Outcome, Stop>
    requires place { IsNewPlace here.game.now here.depth search.old entry value completion.now }
    requires point { IsKnownPoint here.game.now point.now }
    requires window { IsProperWindow window.now }
    ensures outcome { IfOk result (IsOutcome here.entry.game.now [] [] here.entry.rest.now here.entry.depth search.old.bx window.now) }
    ensures stop { IfErr result (IsRightStop here.entry.game.now search.new.journal) }
    ensures moved { Moved here.entry.game.now (WentAt entry value) search.old search.new }
{
    match guides
        .remembered
        .recalled(alloc, here, &mut search.bx, window)?
    {
        None => look_into(
            alloc, here, search, guides, entry, value, completion, point, window,
        ),
        Some(recalled) => {
            if recalled.is_enough(window) {
                return Ok(recalled.enough());
            }
            let above = recalled.window(window);
            let outcome = look_into(
                alloc, here, search, guides, entry, value, completion, point, &above,
            )?;
            Ok(recalled.or_better(outcome))
        }
    }
}

/// The outcome once the next variable has this value.
#[cycle(search)]
fn child(
    alloc: Global,
    here: Place<'_>,
    search: &mut Search,
    guides: &mut Guides,
    entry: u32,
    value: i64,
    completion: &[i64],
    point: &Option<BestPoint>,
    window: &Window,
) -> Result<Outcome, Stop>
    requires some { 0 < length here.rest.now }
    requires place { IsValuePlace here.game.now here.depth search.old entry value }
    requires completes { CompletesNext here.game.now here.depth search.old.bx value completion.now }
    requires point { IsKnownPoint here.game.now point.now }
    requires window { IsProperWindow window.now }
    ensures outcome { IfOk result (IsOutcome here.entry.game.now [] [] (drop 1 here.entry.rest.now) (here.entry.depth + 1) (slice_set search.old.bx here.entry.depth (single value)) window.now) }
    ensures stop { IfErr result (IsRightStop here.entry.game.now search.new.journal) }
    ensures moved { Moved here.entry.game.now (WentAt entry value) search.old search.new }
{
    let before = here.range(&search.bx);
    here.put(&mut search.bx, single(value));
    let outcome = enter(
        alloc,
        here.behind(),
        search,
        guides,
        entry,
        value,
        completion,
        point,
        window,
    );
    here.put(&mut search.bx, before);
    outcome
}

/// The choices of these values one by one, from the low end on; the first that isn't below the cap is enough.
#[cycle(search)]
fn choices_in(
    alloc: Global,
    here: Place<'_>,
    search: &mut Search,
    guides: &mut Guides,
    entry: u32,
    values: Range,
    completion: &[i64],
    point: &Option<BestPoint>,
    window: &Window,
) -> Result<Tried, Stop>
    requires player { SetsNext Exists here.rest.now }
    requires place { IsRunPlace here.game.now here.depth search.old entry completion.now values }
    requires point { IsKnownPoint here.game.now point.now }
    requires window { IsProperWindow window.now }
    ensures tried { IfOk result (AreTried here.entry.game.now [] [] here.entry.rest.now here.entry.depth search.old.bx window.now values) }
    ensures stop { IfErr result (IsRightStop here.entry.game.now search.new.journal) }
    ensures moved { Moved here.entry.game.now (WentAmong entry values.low (values.high +ℤ pos 1)) search.old search.new }
{
    let mut choices = Choices::new(alloc);
    for choice in values.low..=values.high {
        let within = choices.window(window);
        let next = child(
            alloc, here, search, guides, entry, choice, completion, point, &within,
        )?;
        match choices.with(alloc, choice, next)? {
            Tried::More(more) => choices = more,
            Tried::Enough { value, policy } => return Ok(Tried::Enough { value, policy }),
        }
    }
    Ok(Tried::More(choices))
}

/// The best of the choices from `start` on, which are known, and those before.
#[cycle(search)]
fn best_before(
    alloc: Global,
    here: Place<'_>,
    search: &mut Search,
    guides: &mut Guides,
    entry: u32,
    start: i64,
    later: Choices,
    completion: &[i64],
    point: &Option<BestPoint>,
    window: &Window,
) -> Result<Outcome, Stop>
    requires player { SetsNext Exists here.rest.now }
    requires place { IsRunPlace here.game.now here.depth search.old entry completion.now (record { low = (range_at search.old.bx here.depth).low; high = start -ℤ pos 1 }) }
    requires start { IsStart (range_at search.old.bx here.depth) start }
    requires later { AreAllTried here.game.now [] [] here.rest.now here.depth search.old.bx window.now (record { low = start; high = (range_at search.old.bx here.depth).high }) later }
    requires point { IsKnownPoint here.game.now point.now }
    requires window { IsProperWindow window.now }
    ensures outcome { IfOk result (IsOutcome here.entry.game.now [] [] here.entry.rest.now here.entry.depth search.old.bx window.now) }
    ensures stop { IfErr result (IsRightStop here.entry.game.now search.new.journal) }
    ensures moved { Moved here.entry.game.now (WentBelow entry) search.old search.new }
{
    let low = here.range(&search.bx).low;
    if start <= low {
        return Ok(later.outcome(alloc)?);
    }
    let within = later.window(window);
    let values = Range {
        low,
        high: start - 1,
    };
    match choices_in(
        alloc, here, search, guides, entry, values, completion, point, &within,
    )? {
        Tried::Enough { value, policy } => Ok(Outcome::Over { value, policy }),
        Tried::More(choices) => Ok(choices.before(later)?.outcome(alloc)?),
    }
}

/// The best of the existential player's choices, the likeliest and those above it first; the first that isn't below the cap
/// is enough.
#[cycle(search)]
fn best_choice(
    alloc: Global,
    here: Place<'_>,
    search: &mut Search,
    guides: &mut Guides,
    entry: u32,
    completion: &[i64],
    point: &Option<BestPoint>,
    window: &Window,
) -> Result<Outcome, Stop>
    requires player { SetsNext Exists here.rest.now }
    requires place { IsVisitPlace here.game.now here.depth search.old entry completion.now }
    requires point { IsKnownPoint here.game.now point.now }
    requires window { IsProperWindow window.now }
    ensures outcome { IfOk result (IsOutcome here.entry.game.now [] [] here.entry.rest.now here.entry.depth search.old.bx window.now) }
    ensures stop { IfErr result (IsRightStop here.entry.game.now search.new.journal) }
    ensures moved { Moved here.entry.game.now (WentBelow entry) search.old search.new }
{
    let covered = here.range(&search.bx);
    let start = likeliest(covered, point, here.depth);
    let values = Range {
        low: start,
        high: covered.high,
    };
    match choices_in(
        alloc, here, search, guides, entry, values, completion, point, window,
    )? {
        Tried::Enough { value, policy } => Ok(Outcome::Over { value, policy }),
        Tried::More(choices) => best_before(
            alloc, here, search, guides, entry, start, choices, completion, point, window,
        ),
    }
}

/// What one value of the universal player's comes to.
#[cycle(search)]
fn answer_to(
    alloc: Global,
    here: Place<'_>,
    search: &mut Search,
    guides: &mut Guides,
    entry: u32,
    value: i64,
    completion: &[i64],
    point: &Option<BestPoint>,
    window: &Window,
) -> Result<Answer, Stop>
    requires player { SetsNext Universal here.rest.now }
    requires place { IsNewValuePlace here.game.now here.depth search.old entry value }
    requires completes { Completes here.game.now here.depth search.old.bx completion.now }
    requires point { IsKnownPoint here.game.now point.now }
    requires window { IsProperWindow window.now }
    ensures answer { IfOk result (IsRightAnswer here.entry.game.now [] [] here.entry.rest.now here.entry.depth search.old.bx window.now (next_value completion.now) value) }
    ensures stop { IfErr result (IsRightStop here.entry.game.now search.new.journal) }
    ensures moved { Moved here.entry.game.now (WentAt entry value) search.old search.new }
{
    if is_known(here.game, completion, value) {
        let later = later_values(completion);
        let outcome = child(
            alloc, here, search, guides, entry, value, later, point, window,
        )?;
        return Ok(legal_answer(alloc, value, list_of(alloc, later)?, outcome)?);
    }
    match legality(alloc, here, search, entry, value)? {
        Legality::Illegal(tree) => Ok(Answer::Kept(Reply::Illegal(tree))),
        Legality::Completion(values) => {
            let later = values.as_slice();
            let outcome = child(
                alloc, here, search, guides, entry, value, later, point, window,
            )?;
            Ok(legal_answer(alloc, value, values, outcome)?)
        }
    }
}

/// The answers to these values one by one, from the low end on; where one ends the visit, its outcome.
#[cycle(search)]
fn answers_in(
    alloc: Global,
    here: Place<'_>,
    search: &mut Search,
    guides: &mut Guides,
    entry: u32,
    values: Range,
    lowest: &Lowest,
    completion: &[i64],
    point: &Option<BestPoint>,
    window: &Window,
) -> Result<Answered, Stop>
    requires player { SetsNext Universal here.rest.now }
    requires place { IsRunPlace here.game.now here.depth search.old entry completion.now values }
    requires lowest { IsKnownPoint here.game.now lowest.now.point }
    requires point { IsKnownPoint here.game.now point.now }
    requires window { IsProperWindow window.now }
    ensures answered { IfOk result (AreAnswered here.entry.game.now [] [] here.entry.rest.now here.entry.depth search.old.bx window.now (next_value completion.now) values) }
    ensures stop { IfErr result (IsRightStop here.entry.game.now search.new.journal) }
    ensures moved { Moved here.entry.game.now (WentAmong entry values.low (values.high +ℤ pos 1)) search.old search.new }
{
    let mut answers = Answers::new(alloc);
    for value in values.low..=values.high {
        let within = answers.window(window);
        let known = lowest.point_at(value, point);
        let answer = answer_to(
            alloc, here, search, guides, entry, value, completion, known, &within,
        )?;
        match settled(alloc, here, &mut search.bx, &within, answer)? {
            Answer::Ended(outcome) => {
                guides.note(here.depth, value);
                return Ok(Answered::Enough(answers.widened(outcome)));
            }
            Answer::Kept(reply) => answers = answers.with(value, reply)?,
        }
    }
    Ok(Answered::More(answers))
}

/// The worst of the values from `start` on, which are answered, and those before.
#[cycle(search)]
fn worst_before(
    alloc: Global,
    here: Place<'_>,
    search: &mut Search,
    guides: &mut Guides,
    entry: u32,
    start: i64,
    later: Answers,
    lowest: &Lowest,
    completion: &[i64],
    point: &Option<BestPoint>,
    window: &Window,
) -> Result<Outcome, Stop>
    requires player { SetsNext Universal here.rest.now }
    requires place { IsRunPlace here.game.now here.depth search.old entry completion.now (record { low = (range_at search.old.bx here.depth).low; high = start -ℤ pos 1 }) }
    requires start { IsStart (range_at search.old.bx here.depth) start }
    requires later { AreAllAnswered here.game.now [] [] here.rest.now here.depth search.old.bx window.now (next_value completion.now) (record { low = start; high = (range_at search.old.bx here.depth).high }) later }
    requires lowest { IsKnownPoint here.game.now lowest.now.point }
    requires point { IsKnownPoint here.game.now point.now }
    requires window { IsProperWindow window.now }
    ensures outcome { IfOk result (IsOutcome here.entry.game.now [] [] here.entry.rest.now here.entry.depth search.old.bx window.now) }
    ensures stop { IfErr result (IsRightStop here.entry.game.now search.new.journal) }
    ensures moved { Moved here.entry.game.now (WentBelow entry) search.old search.new }
{
    let low = here.range(&search.bx).low;
    if start <= low {
        return Ok(later.outcome(window.cap));
    }
    let within = later.window(window);
    let values = Range {
        low,
        high: start - 1,
    };
    match answers_in(
        alloc, here, search, guides, entry, values, lowest, completion, point, &within,
    )? {
        Answered::Enough(outcome) => Ok(later.widened(outcome)),
        Answered::More(answers) => Ok(answers.before(later)?.outcome(window.cap)),
    }
}

/// The worst that the universal player can do, from `start` on first; the first value against which the floor can't be
/// reached is enough.
#[cycle(search)]
fn worst_from(
    alloc: Global,
    here: Place<'_>,
    search: &mut Search,
    guides: &mut Guides,
    entry: u32,
    lowest: &Lowest,
    completion: &[i64],
    point: &Option<BestPoint>,
    window: &Window,
) -> Result<Outcome, Stop>
    requires player { SetsNext Universal here.rest.now }
    requires place { IsVisitPlace here.game.now here.depth search.old entry completion.now }
    requires start { IsStart (range_at search.old.bx here.depth) lowest.now.value }
    requires lowest { IsKnownPoint here.game.now lowest.now.point }
    requires point { IsKnownPoint here.game.now point.now }
    requires window { IsProperWindow window.now }
    ensures outcome { IfOk result (IsOutcome here.entry.game.now [] [] here.entry.rest.now here.entry.depth search.old.bx window.now) }
    ensures stop { IfErr result (IsRightStop here.entry.game.now search.new.journal) }
    ensures moved { Moved here.entry.game.now (WentBelow entry) search.old search.new }
{
    let covered = here.range(&search.bx);
    let start = lowest.value;
    let values = Range {
        low: start,
        high: covered.high,
    };
    match answers_in(
        alloc, here, search, guides, entry, values, lowest, completion, point, window,
    )? {
        Answered::Enough(outcome) => Ok(outcome),
        Answered::More(answers) => worst_before(
            alloc, here, search, guides, entry, start, answers, lowest, completion, point, window,
        ),
    }
}

/// The worst that the universal player can do, the likeliest value and those above it first. Before one is visited a look is taken at
/// all: a value behind which the floor is closed is enough.
#[cycle(search)]
fn worst_answer(
    alloc: Global,
    here: Place<'_>,
    search: &mut Search,
    guides: &mut Guides,
    entry: u32,
    completion: &[i64],
    point: &Option<BestPoint>,
    window: &Window,
) -> Result<Outcome, Stop>
    requires player { SetsNext Universal here.rest.now }
    requires place { IsVisitPlace here.game.now here.depth search.old entry completion.now }
    requires point { IsKnownPoint here.game.now point.now }
    requires window { IsProperWindow window.now }
    ensures outcome { IfOk result (IsOutcome here.entry.game.now [] [] here.entry.rest.now here.entry.depth search.old.bx window.now) }
    ensures stop { IfErr result (IsRightStop here.entry.game.now search.new.journal) }
    ensures moved { Moved here.entry.game.now (WentBelow entry) search.old search.new }
{
    let likeliest = guides.start(here.range(&search.bx), here.depth);
    match first_look(
        alloc,
        here,
        &mut search.bx,
        completion,
        likeliest,
        point,
        window,
    )? {
        FirstLook::Closed(value, outcome) => {
            guides.note(here.depth, value);
            Ok(outcome)
        }
        FirstLook::Begin(lowest) => worst_from(
            alloc, here, search, guides, entry, &lowest, completion, point, window,
        ),
    }
}
