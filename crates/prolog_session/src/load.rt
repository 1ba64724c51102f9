// The load of a text.
ghost use Rattle.std.specs.Prelude.{◌≡◌, ◌≤◌, ◌++◌, [], ◌∷◌, None, Some, All, IfOk, OnOk, MatchOption, ℕ};
ghost use Rattle.prolog_terms.specs.Clauses.{IsClause};
ghost use Rattle.prolog_terms.specs.Indicators.{indicator_of};
ghost use Rattle.prolog_terms.specs.Operators.{initial_operators};
ghost use Rattle.prolog_clauses.specs.Declarations.{error_of, table_after, HasPriority};
ghost use Rattle.journal_base.specs.View.{AreSizes};
ghost use Rattle.wam_machine.specs.Procedures.{no_change};
ghost use Rattle.wam_machine.specs.Runs.{AreShown};
ghost use Rattle.prolog_session.specs.Words.{max_steps};
ghost use Rattle.prolog_session.specs.Load as the_load;
ghost use Rattle.prolog_session.specs.Load.{a_goal, goals, Loads, IsReadyPart, IsLoadOf, operators_of, refusal_of};
ghost use Rattle.prolog_session.specs.Bases.{error_runs, sizes_of, holding, loaded_in, IsOfLoad, HasProcedure, HasClause, HasDynamics};
ghost use Rattle.prolog_session.specs.Taking.{Takes};

use crate::Runs;
use crate::goal_run::run_goal;
use crate::kept::{Kept, TextGoal};
use crate::part::{Next, Part, assertz, next_part};
use crate::refusal::Refusal;
use journal_base::{Added, Base, Declared, Gate, PlainBase, Sizes, Tally};
use prolog_clauses::{Declaring, Dynamics, Indicators, declare};
use prolog_lexer::Lexer;
use prolog_terms::{
    Clause, End, Fault, Indicator, Kind, Name, Ops, ShownVariables, Want, fault_term,
};
use std::alloc::Global;
use std::sync::Wait;
use wam_machine::{Events, Fronts, Run, RunEnd, is_reserved, no_change};

/// The engine of the load.
const LOADER: u32 = 0;

/// A text that is loaded: the base that holds its journal, the operators behind it, its runs, and the read-term at which the
/// load ended, if it is refused.
#[derive(Drop)]
pub struct Load {
    pub base: PlainBase,
    pub ops: Ops,
    pub runs: Runs,
    pub refused: Option<Refusal>,
}

/// A load so far: the base that holds its journal, the operators there, its runs, and the goals that are kept for the end.
#[derive(Drop)]
struct Loading {
    base: PlainBase,
    ops: Ops,
    runs: Runs,
    kept: Kept,
}

/// The number of a procedure, which is declared if it isn't yet; none where there is no room for that.
fn procedure<R: Wait>(
    rt: &R,
    base: &mut PlainBase,
    indicator: &Indicator,
) -> Result<Option<u32>, Want>
    requires { base.old.number ≡ 0 }
    ensures { IfOk result (HasProcedure base.old base.new indicator.now) }
{
    if let Some((number, _)) = base.find(indicator) {
        return Ok(Some(number));
    }
    match base.declare(rt, indicator, Kind::Static) {
        Declared::Done(number) => Ok(Some(number)),
        Declared::Already(number, _) => Ok(Some(number)),
        Declared::Full { .. } => Ok(None),
        Declared::Want => Err(Want),
    }
}

/// Adds a clause behind those of its procedure. The answer says whether there was room for it.
fn add_clause<R: Wait>(
    rt: &R,
    base: &mut PlainBase,
    indicator: &Indicator,
    clause: &Clause,
) -> Result<bool, Want>
    requires load { base.old.number ≡ 0 }
    requires indicator { indicator_of clause.now.head ≡ Some indicator.now }
    requires clause { IsClause clause.now }
    ensures { IfOk result (HasClause base.old base.new indicator.now clause.now) }
{
    let procedure = match procedure(rt, base, indicator)? {
        Some(procedure) => procedure,
        None => return Ok(false),
    };
    match base.add(rt, End::Back, procedure, clause) {
        Added::Done(_) => Ok(true),
        Added::Full { .. } => Ok(false),
        Added::Want => Err(Want),
    }
}

/// The run of a read-term in this line that raises an error, at the name and arity of the call that raises it.
#[tactic(auto, unfolding(crate::specs::Load::raised))]
fn raised(alloc: Global, line: u64, fault: &Fault, at: &Indicator) -> Result<Run, Want>
    ensures { IfOk result (λ run. run ≡ the_load.raised line fault.now at.now) }
{
    let ball = fault_term(alloc, fault, at)?;
    Ok(Run {
        engine: LOADER,
        line,
        shown: ShownVariables::new(alloc),
        transcript: Events::of(Vec::new(alloc)),
        fronts: Fronts::of(Vec::new(alloc)),
        tally: Tally::new(),
        steps: 0,
        end: RunEnd::Ball(ball),
    })
}

/// The call that declares procedures dynamic.
fn dynamic(alloc: Global) -> Result<Indicator, Want>
    ensures { IfOk result (λ i. i ≡ the_load.dynamic) }
{
    Ok(Indicator {
        name: Name::of(alloc, b"dynamic")?,
        arity: 1,
    })
}

/// Adds a run of a read-term in this line, unless there was room for it; the error is that of this call.
fn add_run(
    alloc: Global,
    runs: &mut Runs,
    fits: bool,
    line: u64,
    at: &Indicator,
) -> Result<(), Want>
    ensures { OnOk result (runs.new ≡ runs.old ++ the_load.run_unless fits line at.now) }
{
    if fits {
        return Ok(());
    }
    let fault = Fault::Resource(Name::of(alloc, b"database")?);
    runs.push(raised(alloc, line, &fault, at)?)
}

/// Declares procedures dynamic, one after the other, where they aren't declared. The answer says whether there was room for all.
fn declare_dynamic<R: Wait>(
    rt: &R,
    base: &mut PlainBase,
    indicators: &[Indicator],
) -> Result<bool, Want>
    requires { base.old.number ≡ 0 }
    ensures { IfOk result (HasDynamics base.old base.new indicators.now) }
{
    'procedures: for indicator in indicators {
        match base.declare(rt, indicator, Kind::Dynamic) {
            Declared::Done(_) => {}
            Declared::Already(_, _) => {}
            Declared::Full { .. } => return Ok(false),
            Declared::Want => return Err(Want),
        }
    }
    Ok(true)
}

/// Whether a procedure that was looked for is there, and static.
fn is_static(procedure: Option<(u32, Kind)>) -> bool
    ensures { result ≡ the_load.is_static procedure }
{
    match procedure {
        Some((_, Kind::Static)) => true,
        Some((_, Kind::Dynamic)) => false,
        None => false,
    }
}

/// Whether a procedure may not be dynamic: it is a control construct, a builtin, or static.
fn is_fixed(base: &mut PlainBase, indicator: &Indicator) -> bool
    ensures base { base.new ≡ base.old }
    ensures fixed { result ≡ the_load.is_fixed base.old.entries indicator.now }
{
    if is_reserved(indicator) {
        return true;
    }
    is_static(base.find(indicator))
}

/// The first of these that may not be dynamic.
fn first_fixed<'a>(base: &mut PlainBase, indicators: &'a [Indicator]) -> Option<&'a Indicator>
    ensures base { base.new ≡ base.old }
    ensures first { MatchOption result (the_load.first_fixed base.old.entries indicators.now ≡ None) (λ i. the_load.first_fixed base.old.entries indicators.now ≡ Some i.now) }
{
    'procedures: for indicator in indicators {
        if is_fixed(base, indicator) {
            return Some(indicator);
        }
    }
    None
}

/// The run of a directive in this line that would declare this procedure dynamic, which may not be.
fn unchangeable(alloc: Global, line: u64, indicator: &Indicator) -> Result<Run, Want>
    ensures { IfOk result (λ run. run ≡ the_load.raised line (no_change indicator.now) the_load.dynamic) }
{
    let fault = no_change(alloc, indicator)?;
    let at = dynamic(alloc)?;
    raised(alloc, line, &fault, &at)
}

/// Declares procedures dynamic, unless one of them may not be; what has no room, and an error, have a run.
fn add_dynamic<R: Wait>(
    rt: &R,
    alloc: Global,
    base: &mut PlainBase,
    runs: &mut Runs,
    line: u64,
    indicators: &Indicators,
) -> Result<(), Want>
    requires { base.old.number ≡ 0 }
    ensures base { OnOk result (base.new ≡ record base.old { entries = base.new.entries }) }
    ensures loaded { OnOk result (loaded_in base.new runs.new ≡ the_load.after_declaration (sizes_of base.old) line indicators.now (loaded_in base.old runs.old)) }
{
    let indicators = indicators.items();
    if let Some(indicator) = first_fixed(base, indicators) {
        return runs.push(unchangeable(alloc, line, indicator)?);
    }
    let fits = declare_dynamic(rt, base, indicators)?;
    let at = dynamic(alloc)?;
    add_run(alloc, runs, fits, line, &at)
}

/// Declares the procedures of a directive dynamic, or adds a run of its error.
fn add_dynamics<R: Wait>(
    rt: &R,
    alloc: Global,
    load: &mut Loading,
    line: u64,
    dynamics: Dynamics,
) -> Result<(), Want>
    requires { IsOfLoad load.old.base }
    ensures { OnOk result ((budget : ℕ) → Takes budget load.old load.new (Part.Procedures line dynamics)) }
{
    match dynamics {
        Dynamics::Declares(indicators) => add_dynamic(
            rt,
            alloc,
            &mut load.base,
            &mut load.runs,
            line,
            &indicators,
        ),
        Dynamics::Raises(fault) => {
            let at = dynamic(alloc)?;
            load.runs.push(raised(alloc, line, &fault, &at)?)
        }
    }
}

/// Adds a run of a directive for operators in this line, if there is an error.
fn add_error(alloc: Global, runs: &mut Runs, fault: Option<Fault>, line: u64) -> Result<(), Want>
    ensures { OnOk result (runs.new ≡ runs.old ++ error_runs line fault) }
{
    let fault = match fault {
        Some(fault) => fault,
        None => return Ok(()),
    };
    let op = Indicator {
        name: Name::of(alloc, b"op")?,
        arity: 3,
    };
    runs.push(raised(alloc, line, &fault, &op)?)
}

/// Declares operators; where there is an error, nothing is declared and a run is added.
fn add_operators(
    alloc: Global,
    ops: &mut Ops,
    runs: &mut Runs,
    line: u64,
    declaring: Declaring,
) -> Result<(), Want>
    requires { HasPriority declaring }
    ensures table { OnOk result (ops.new ≡ table_after ops.old declaring) }
    ensures runs { OnOk result (runs.new ≡ runs.old ++ error_runs line (error_of ops.old declaring)) }
{
    let fault = declare(alloc, ops, declaring)?;
    add_error(alloc, runs, fault, line)
}

/// Runs a goal of the text over what is loaded, and adds its run; what it added to the base stays.
fn run_in_load<R: Wait, G: Gate>(
    rt: &R,
    alloc: Global,
    gate: &G,
    steps: u64,
    base: PlainBase,
    ops: Ops,
    runs: &mut Runs,
    goal: &TextGoal,
) -> Result<(PlainBase, Ops), Want>
    requires steps { (1 ≤ steps) × (steps ≤ max_steps) }
    requires goal { AreShown goal.now.goal }
    requires base { IsOfLoad base }
    ensures base { IfOk result (λ after. after.0 ≡ record base { entries = after.0.entries }) }
    ensures ops { IfOk result (λ after. after.1 ≡ ops) }
    ensures run { IfOk result (λ after. Loads (sizes_of base) steps (loaded_in base runs.old) (a_goal ops goal.now ∷ []) (loaded_in after.0 runs.new)) }
{
    let ran = run_goal(rt, alloc, gate, steps, base, ops, goal.line, &goal.goal)?;
    runs.push(ran.run)?;
    Ok((ran.base, ran.ops))
}

/// The same for a directive, in a load so far.
fn run_directive<R: Wait, G: Gate>(
    rt: &R,
    alloc: Global,
    gate: &G,
    steps: u64,
    load: Loading,
    goal: &TextGoal,
) -> Result<Loading, Want>
    requires steps { (1 ≤ steps) × (steps ≤ max_steps) }
    requires goal { AreShown goal.now.goal }
    requires base { IsOfLoad load.base }
    ensures { IfOk result (λ after. Takes steps load after (Part.Goal goal.now)) }
{
    let Loading {
        base,
        ops,
        mut runs,
        kept,
    } = load;
    let (base, ops) = run_in_load(rt, alloc, gate, steps, base, ops, &mut runs, goal)?;
    Ok(Loading {
        base,
        ops,
        runs,
        kept,
    })
}

/// Does what a read-term has a load do.
fn add_part<R: Wait, G: Gate>(
    rt: &R,
    alloc: Global,
    gate: &G,
    steps: u64,
    load: Loading,
    part: Part,
) -> Result<Loading, Want>
    requires steps { (1 ≤ steps) × (steps ≤ max_steps) }
    requires part { IsReadyPart part }
    requires base { IsOfLoad load.base }
    ensures { IfOk result (λ after. Takes steps load after part) }
{
    let mut load = load;
    match part {
        Part::Clause(line, indicator, clause) => {
            let fits = add_clause(rt, &mut load.base, &indicator, &clause)?;
            let at = assertz(alloc)?;
            add_run(alloc, &mut load.runs, fits, line, &at)?;
            Ok(load)
        }
        Part::Operators(line, declaring) => {
            add_operators(alloc, &mut load.ops, &mut load.runs, line, declaring)?;
            Ok(load)
        }
        Part::Procedures(line, dynamics) => {
            add_dynamics(rt, alloc, &mut load, line, dynamics)?;
            Ok(load)
        }
        Part::Goal(goal) => run_directive(rt, alloc, gate, steps, load, &goal),
        Part::Kept(goal) => {
            load.kept.push(goal)?;
            Ok(load)
        }
        Part::Nothing => Ok(load),
        Part::Raises(line, fault, at) => {
            load.runs.push(raised(alloc, line, &fault, &at)?)?;
            Ok(load)
        }
    }
}

/// Runs the goals that were kept, at the end of the text.
fn run_kept<R: Wait, G: Gate>(
    rt: &R,
    alloc: Global,
    gate: &G,
    steps: u64,
    load: Loading,
) -> Result<Load, Want>
    requires steps { (1 ≤ steps) × (steps ≤ max_steps) }
    requires goals { All (λ goal. AreShown goal.goal) load.kept }
    requires base { IsOfLoad load.base }
    ensures base { IfOk result (λ after. after.base ≡ record load.base { entries = after.base.entries }) }
    ensures runs { IfOk result (λ after. Loads (sizes_of load.base) steps (loaded_in load.base load.runs) (goals load.ops load.kept) (loaded_in after.base after.runs)) }
    ensures operators { IfOk result (λ after. after.ops ≡ load.ops) }
    ensures refused { IfOk result (λ after. after.refused ≡ None) }
{
    let Loading {
        mut base,
        mut ops,
        mut runs,
        kept,
    } = load;
    for goal in kept.items() {
        (base, ops) = run_in_load(rt, alloc, gate, steps, base, ops, &mut runs, goal)?;
    }
    Ok(Load {
        base,
        ops,
        runs,
        refused: None,
    })
}

/// The end of a load at a read-term that is refused. No goal that was kept is run.
fn ended(load: Loading, refusal: Refusal) -> Load
    ensures base { result.base ≡ load.base }
    ensures operators { result.ops ≡ load.ops }
    ensures runs { result.runs ≡ load.runs }
    ensures refused { result.refused ≡ Some refusal }
{
    Load {
        base: load.base,
        ops: load.ops,
        runs: load.runs,
        refused: Some(refusal),
    }
}

/// A load of nothing yet, into a base of these sizes.
fn begun(alloc: Global, sizes: Sizes) -> Result<Loading, Want>
    requires { AreSizes sizes.words sizes.updates }
    ensures base { IfOk result (λ load. load.base ≡ holding sizes []) }
    ensures operators { IfOk result (λ load. load.ops ≡ initial_operators) }
    ensures runs { IfOk result (λ load. load.runs ≡ []) }
    ensures kept { IfOk result (λ load. load.kept ≡ []) }
{
    Ok(Loading {
        base: PlainBase::new(alloc, LOADER, sizes)?,
        ops: Ops::initial(alloc)?,
        runs: Runs::new(alloc),
        kept: Kept::new(alloc),
    })
}

/// Loads a text into a base of these sizes, up to the first read-term that is refused: adds its clauses, declares its operators
/// and its dynamic procedures and runs its goals, of so many steps at most each; those that are kept come last, where no read-term is refused. What has no
/// room, can't be added or raises an error has a run of its own, and the load goes on.
#[tactic(auto, unfolding(crate::specs::Load::text_of))]
pub fn load_text<R: Wait, G: Gate>(
    rt: &R,
    alloc: Global,
    gate: &G,
    steps: u64,
    sizes: Sizes,
    text: &[u8],
) -> Result<Load, Want>
    requires sizes { AreSizes sizes.words sizes.updates }
    requires steps { (1 ≤ steps) × (steps ≤ max_steps) }
    ensures base { IfOk result (λ load. load.base ≡ holding sizes load.base.entries) }
    ensures runs { IfOk result (λ load. IsLoadOf sizes steps text.now load.base.entries load.runs) }
    ensures operators { IfOk result (λ load. load.ops ≡ operators_of text.now) }
    ensures refused { IfOk result (λ load. load.refused ≡ refusal_of text.now) }
{
    let mut lexer = Lexer::new(text);
    let mut load = begun(alloc, sizes)?;
    'parts: loop {
        match next_part(alloc, &mut lexer, &load.ops)? {
            Next::Taken(part) => load = add_part(rt, alloc, gate, steps, load, part)?,
            Next::Refused(refusal) => return Ok(ended(load, refusal)),
            Next::End => return Ok(run_kept(rt, alloc, gate, steps, load)?),
        }
    }
}
