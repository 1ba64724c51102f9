// Cuts: moments that may be gone back to are taken away.
ghost use Rattle.std.specs.Prelude.{◌≡◌, ◌==◌, ◌-◌, ◌<◌, [], if◌then◌else◌, take};
ghost use Rattle.journal_base.specs.Goals.{Goal};
ghost use Rattle.journals.specs.Journal.{Journal};
ghost use Rattle.journal_base.specs.View.{IsSound, Looks, opened};
ghost use Rattle.wam_machine.specs.Cursors.{Begins};
ghost use Rattle.wam_machine.specs.States.{Goes, cut_back as cut_back_to, fails};
ghost use Rattle.wam_machine.specs.Machine.{leaving_catch};
ghost use Rattle.wam_machine.specs.Terms.{AreTerms, said, calls_in};
ghost use Rattle.wam_machine.specs.View.{AreKept, IsReady, IsLeft, GoesOn, calls};

use crate::choices::{drop_newest, height as height_now};
use crate::state::{Host, Machine, Mode};
use crate::terms::{Call, Terms};
use journal_base::Base;

/// Gives up a call, with its cursor.
pub(crate) fn give_up<B: Base>(base: &mut B, call: Call<B::Cursor>)
    requires serves { (g : Goal) × B.serves base.old call.cursor g }
    requires out { 0 < (B.out base.old).of_group (B.group call.cursor) }
    ensures seen { Looks (B.view base.old) (B.view base.new) }
    ensures becomes { B.becomes base.old base.new }
    ensures out { B.out base.old ≡ opened (B.group call.cursor) (B.out base.new) }
    ensures others { (c : B.Cursor) (g : Goal) → B.serves base.old c g → 0 < (B.out base.new).of_group (B.group c) → B.serves base.new c g }
{
    let Call {
        used: _,
        goal: _,
        procedure: _,
        cursor,
    } = call;
    base.drop_cursor(cursor);
}

/// Takes away what stands above a height of the stack. The cursors of its calls are given back.
pub(crate) fn cut_back<B: Base>(base: &mut B, terms: &mut Terms<B::Cursor>, height: usize)
    requires sound { IsSound (B.view base.old) }
    requires kept { AreKept (B.serves base.old) B.group (B.out base.old) (calls_in (said terms.old).stack) }
    ensures seen { Looks (B.view base.old) (B.view base.new) }
    ensures becomes { B.becomes base.old base.new }
    ensures kept { AreKept (B.serves base.new) B.group (B.out base.new) (calls_in (said terms.new).stack) }
    ensures terms { AreTerms terms.old → AreTerms terms.new }
    ensures said { said terms.new ≡ record (said terms.old) { stack = take height (said terms.old).stack } }
{
    while height_now(terms) > height {
        if let Some(call) = drop_newest(terms) {
            give_up(base, call);
        }
    }
}

/// A cut back to a height of the stack.
pub(crate) fn cut_stack<B: Base>(
    base: &mut B,
    machine: &mut Machine<B::Cursor>,
    host: &Host<'_>,
    height: usize,
)
    requires ready { IsReady (B.view base.old) (B.serves base.old) B.group (B.out base.old) B.rest B.may_visit B.looked_at host.now.budget machine.old }
    ensures seen { Looks (B.view base.old) (B.view base.new) }
    ensures becomes { B.becomes base.old base.new }
    ensures kept { AreKept (B.serves base.new) B.group (B.out base.new) (calls machine.new) }
    ensures left { IsLeft host.now.budget (B.view base.new) machine.old machine.new }
    ensures goes { (j : Journal) → Begins (B.view base.new) j → GoesOn B.rest B.may_visit B.looked_at B.ahead (B.view base.new).causes [] (λ s. Goes (cut_back_to height s)) j machine.old machine.new }
{
    // The contract speaks of it.
    let _host = host;
    cut_back(base, &mut machine.terms, height);
}

/// The goal of a `\+` has an answer: what is left of it is taken away, and its mark, and that is a failure.
pub(crate) fn end_not<B: Base>(
    base: &mut B,
    machine: &mut Machine<B::Cursor>,
    host: &Host<'_>,
    height: usize,
)
    requires ready { IsReady (B.view base.old) (B.serves base.old) B.group (B.out base.old) B.rest B.may_visit B.looked_at host.now.budget machine.old }
    ensures seen { Looks (B.view base.old) (B.view base.new) }
    ensures becomes { B.becomes base.old base.new }
    ensures kept { AreKept (B.serves base.new) B.group (B.out base.new) (calls machine.new) }
    ensures left { IsLeft host.now.budget (B.view base.new) machine.old machine.new }
    ensures goes { (j : Journal) → Begins (B.view base.new) j → GoesOn B.rest B.may_visit B.looked_at B.ahead (B.view base.new).causes [] (λ s. fails (cut_back_to height s)) j machine.old machine.new }
{
    cut_stack(base, machine, host, height);
    machine.mode = Mode::Failing;
}

/// A `catch` is left: its mark is taken away where it is the newest moment.
pub(crate) fn leave_catch<B: Base>(
    base: &mut B,
    machine: &mut Machine<B::Cursor>,
    host: &Host<'_>,
    height: usize,
)
    requires ready { IsReady (B.view base.old) (B.serves base.old) B.group (B.out base.old) B.rest B.may_visit B.looked_at host.now.budget machine.old }
    ensures seen { Looks (B.view base.old) (B.view base.new) }
    ensures becomes { B.becomes base.old base.new }
    ensures kept { AreKept (B.serves base.new) B.group (B.out base.new) (calls machine.new) }
    ensures left { IsLeft host.now.budget (B.view base.new) machine.old machine.new }
    ensures goes { (j : Journal) → Begins (B.view base.new) j → GoesOn B.rest B.may_visit B.looked_at B.ahead (B.view base.new).causes [] (λ s. Goes (leaving_catch height s)) j machine.old machine.new }
{
    let kept = height_left(height_now(&machine.terms), height);
    cut_stack(base, machine, host, kept);
}

/// How high the stack stays where a `catch` is left whose mark is at a height.
fn height_left(now: usize, height: usize) -> usize
    ensures { result ≡ (if now == height then height - 1 else now) }
{
    if now == height {
        height.saturating_sub(1)
    } else {
        now
    }
}
